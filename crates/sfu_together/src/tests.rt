// Eight actors that make calls at the same time, and what their gate records.
use crate::gate::Gate;
use crate::running::run_together;
use port_config::read_actors;
use sfu_base::{MemSink, MemSource};
use std::sync::atomic::{AtomicBool, AtomicU64, Ordering};
use std::test::Fail;
use std::thread;
use std::time::{Clock, Duration};

// One call of the opening part, two of each actor, and one of the closing part.
const SCRIPT: &[u8] =
    b"take 9\n@1 take 1\n@1 take 1\n@2 take 2\n@2 take 2\n@3 take 3\n@3 take 3\n@4 take 4\n@4 take 4\n\
    @5 take 5\n@5 take 5\n@6 take 6\n@6 take 6\n@7 take 7\n@7 take 7\n@8 take 8\n@8 take 8\ntake 9\n";

// The greatest number of times that an actor checks for another one, with a millisecond between two checks.
const MOST_LOOKS: u32 = 10_000;

// What the gate records of one actor: two hexadecimal digits for each event. The first is 1 before a call and 2 after it, the second is the call's index.
const BEFORE: u8 = 0x10;

const AFTER: u8 = 0x20;

const HEARD: u64 = 0x10_20_11_21;

// What the gate recorded about one actor.
#[derive(Drop)]
struct Actor {
    before: AtomicBool,
    after: AtomicBool,
    heard: AtomicU64,
}

impl Actor {
    fn new() -> Actor {
        Actor {
            before: AtomicBool::new(false),
            after: AtomicBool::new(false),
            heard: AtomicU64::new(0),
        }
    }

    // Appends an event to the record of this actor.
    fn hear(&self, kind: u8, line: u32) {
        let place = u64::from(line.min(15));
        let heard = self.heard.load(Ordering::SeqCst) % (1 << 48);
        self.heard
            .store(heard * 256 + u64::from(kind) + place, Ordering::SeqCst);
    }

    // Returns whether the flag of this kind is set. An actor sets it before or after its first call.
    fn is_up(&self, kind: u8) -> bool {
        if kind == BEFORE {
            self.before.load(Ordering::SeqCst)
        } else {
            self.after.load(Ordering::SeqCst)
        }
    }

    fn raise(&self, kind: u8) {
        if kind == BEFORE {
            self.before.store(true, Ordering::SeqCst);
        } else {
            self.after.store(true, Ordering::SeqCst);
        }
    }
}

// The eight actors, and flags for what must not happen.
#[derive(Drop)]
struct Actors {
    each: [Actor; 8],
    // An actor waited for another one until it gave up.
    missed: AtomicBool,
    // The gate was called for an actor outside 1 to 8.
    strayed: AtomicBool,
}

impl Actors {
    fn wait_for<R: Clock>(&self, clock: &R, actor: &Actor, kind: u8) {
        for _ in 0..MOST_LOOKS {
            if actor.is_up(kind) {
                return;
            }
            thread::sleep(clock, Duration::from_millis(1));
        }
        self.missed.store(true, Ordering::SeqCst);
    }

    // Records the call. At its first call an actor waits until all others have reached theirs too.
    fn hear<R: Clock>(&self, clock: &R, kind: u8, actor: u8, line: u32) {
        if actor < 1 || actor > 8 {
            self.strayed.store(true, Ordering::SeqCst);
            return;
        }
        let own = &self.each[usize::from(actor) - 1];
        own.hear(kind, line);
        if line == 0 {
            own.raise(kind);
            for other in 0..8usize {
                self.wait_for(clock, &self.each[other], kind);
            }
        }
    }
}

// Delays each actor before and after its first call, and records the gate's calls.
#[derive(Drop)]
struct Meeting<'a, R> {
    clock: &'a R,
    actors: Actors,
}

impl<'a, R: Clock + Sync> Gate for Meeting<'a, R> {
    fn before(&self, actor: u8, line: u32) {
        self.actors.hear(self.clock, BEFORE, actor, line);
    }

    fn after(&self, actor: u8, line: u32) {
        self.actors.hear(self.clock, AFTER, actor, line);
    }
}

#[test]
fn eight_actors_are_inside_at_the_same_time(rt: HostRuntime) -> Result<(), Fail> {
    let alloc = rt.alloc();
    let mut source = MemSource::new(SCRIPT.to_vec(alloc)?, Vec::new(alloc));
    let mut sink = MemSink::new(alloc, Vec::new(alloc));
    let Ok(script) = read_actors(alloc, &mut source, &mut sink) else {
        panic!(rt; "no script")
    };
    let meeting = Meeting {
        clock: &rt,
        actors: Actors {
            each: [
                Actor::new(),
                Actor::new(),
                Actor::new(),
                Actor::new(),
                Actor::new(),
                Actor::new(),
                Actor::new(),
                Actor::new(),
            ],
            missed: AtomicBool::new(false),
            strayed: AtomicBool::new(false),
        },
    };
    let journal = run_together(&rt, alloc, &script, &meeting)?;
    assert!(rt;
        !meeting.actors.missed.load(Ordering::SeqCst),
        "an actor waited for another in vain"
    );
    assert!(rt;
        !meeting.actors.strayed.load(Ordering::SeqCst),
        "the gate heard of a call of no actor"
    );
    for actor in &meeting.actors.each {
        assert!(rt; actor.is_up(BEFORE), "an actor made no call");
        assert!(rt;
            actor.is_up(AFTER),
            "the gate didn't hear of the end of a call"
        );
        assert_eq!(rt; actor.heard.load(Ordering::SeqCst), HEARD);
    }
    // No actor makes its second call before all actors have made their first.
    let mut order = Vec::new(alloc);
    for entry in journal.entries() {
        assert_eq!(rt; entry.reply.bytes(), b"refused nosubscriber".as_slice());
        order.push(entry.actor)?;
    }
    assert_eq!(rt; order.len(), 18);
    order[1..9].sort(alloc)?;
    order[9..17].sort(alloc)?;
    assert_eq!(rt;
        order.as_slice(),
        [0, 1, 2, 3, 4, 5, 6, 7, 8, 1, 2, 3, 4, 5, 6, 7, 8, 0].as_slice()
    );
    Ok(())
}
