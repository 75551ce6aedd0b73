//! A sum behind a lock, with calls from one thread and from many.
ghost use Rattle.std.specs.Prelude.{◌≡◌, ◌+◌, ◌≤◌, All, IfOk};

use crate::{Held, Seat, Turns};
use std::alloc::{AllocError, Global};
use std::rt::Clock;
use std::sync::Wait;
use std::test::Fail;
use std::thread;
use std::time::Duration;

/// The sum of all amounts, modulo 2^64.
#[derive(Drop)]
struct Total {
    sum: u64,
}

impl Held for Total {
    type Call = u64;

    type Reply = u64;

    type Scratch = ();

    ghost use Rattle.std.specs.Prelude.{◌≡◌, ◌+◌, ◌%◌, ◌^◌, sum_by, false};

    ghost stands = { λ total h. total.sum ≡ sum_by (λ e. e.call) h % 2 ^ 64 };

    ghost gives = { λ h seat call reply scratch. reply ≡ (sum_by (λ e. e.call) h + call) % 2 ^ 64 };

    ghost starves = { λ reply. false };

    fn serve(&mut self, _seat: u32, call: &u64, _scratch: &mut ()) -> u64 {
        self.sum = self.sum.wrapping_add(*call);
        self.sum
    }
}

#[test]
fn two_seats_make_one_history(rt: HostRuntime) -> Result<(), Fail> {
    let (turns, mut seat) = Turns::new(rt.alloc(), Total { sum: 0 }, 0)?;
    let mut other = turns.split(&mut seat); // for another thread
    let one = turns.turn(&rt, &mut other, &3, &mut ())?;
    let two = turns.turn(&rt, &mut seat, &4, &mut ())?;
    assert_eq!(rt; (one.place, one.reply), (0, 3));
    assert_eq!(rt; (two.place, two.reply), (1, 7));
    turns.join(&mut seat, other);
    assert_eq!(rt; turns.close(seat).sum, 7);
    Ok(())
}

#[test]
fn a_lock_is_worn_at_2_to_the_63(rt: HostRuntime) -> Result<(), Fail> {
    let limit: u64 = 1 << 63;
    let (turns, mut seat) = Turns::new(rt.alloc(), Total { sum: 0 }, limit)?;
    assert!(rt; turns.turn(&rt, &mut seat, &3, &mut ()).is_err());
    assert_eq!(rt; turns.close(seat).sum, 0);
    let (turns, mut seat) = Turns::new(rt.alloc(), Total { sum: 0 }, limit - 1)?;
    let last = turns.turn(&rt, &mut seat, &3, &mut ())?;
    assert_eq!(rt; (last.place, last.reply), (limit - 1, 3));
    assert!(rt; turns.turn(&rt, &mut seat, &4, &mut ()).is_err());
    assert_eq!(rt; turns.close(seat).sum, 3);
    Ok(())
}

const THREADS: u32 = 8;

const TURNS_EACH: u64 = 10_000;

/// Splits off one seat for each thread.
fn seats_for<H: Held>(
    alloc: Global,
    turns: &Turns<H>,
    first: &mut Seat<H>,
    threads: u32,
) -> Result<Vec<Seat<H>>, AllocError>
    requires lock { first.old.lock ≡ turns.now }
    requires first { first.old.number ≡ 0 }
    requires capacity { first.old.count + threads ≤ 1024 }
    ensures lock { first.new.lock ≡ turns.now }
    ensures seats { IfOk result (λ seats. All (λ seat. seat.lock ≡ turns.now) seats.items) }
{
    let mut seats = Vec::new(alloc);
    for made in 0..threads {
        seats.push(turns.split(first))?;
    }
    Ok(seats)
}

/// Adds 1 in each of `TURNS_EACH` turns, and returns the places. Returns `None` if a turn failed, if memory ran out, or if a reply wasn't the place
/// of its turn plus 1.
fn count<W: Wait + Sync>(
    rt: &W,
    alloc: Global,
    turns: &Turns<Total>,
    mut seat: Seat<Total>,
) -> Option<Vec<u64>>
    requires { seat.lock ≡ turns.now }
{
    let mut places = Vec::new(alloc);
    for _ in 0..TURNS_EACH {
        let Ok(turn) = turns.turn(rt, &mut seat, &1, &mut ()) else {
            return None;
        };
        if turn.reply.wrapping_sub(turn.place) != 1 || places.push(turn.place).is_err() {
            return None;
        }
    }
    Some(places)
}

#[test]
fn eight_threads_make_each_place_once(rt: HostRuntime) -> Result<(), Fail> {
    let alloc = rt.alloc();
    let (turns, mut seat) = Turns::new(alloc, Total { sum: 0 }, 0)?;
    let seats = seats_for(alloc, &turns, &mut seat, THREADS)?;
    let lists = {
        let (rt, turns) = (&rt, &turns);
        thread::map_vec(
            rt,
            seats,
            &move |seat: Seat<Total>| -> Option<Vec<u64>>
                requires { seat.lock ≡ turns.now }
            { count(rt, alloc, turns, seat) },
        )?
    };
    let mut made = vec![in alloc; false; 80_000]?;
    for list in lists {
        let Some(places) = list else {
            panic!(rt; "a turn failed, or had the reply of another place")
        };
        assert_eq!(rt; places.len(), 10_000);
        for place in places {
            let here = made.get_mut(place as usize);
            assert_eq!(rt; here, Some(&mut false), "place {place}");
            if let Some(here) = made.get_mut(place as usize) {
                *here = true;
            }
        }
    }
    let after = turns.turn(&rt, &mut seat, &1, &mut ())?;
    assert_eq!(rt; (after.place, after.reply), (80_000, 80_001));
    Ok(())
}

/// The number of threads: more than there are gates.
const SLEEPERS: u32 = 80;

/// A value that counts its calls. Each call takes a tenth of a millisecond, so that waiting threads fall asleep.
#[derive(Drop)]
struct Slow<R: Clock + Drop> {
    made: u64,
    clock: R,
}

impl<R: Clock + Drop> Held for Slow<R> {
    type Call = ();

    type Reply = u64;

    type Scratch = ();

    ghost use Rattle.std.specs.Prelude.{◌≡◌, ◌+◌, ◌%◌, ◌^◌, length, false};

    ghost stands = { λ slow h. slow.made ≡ length h % 2 ^ 64 };

    ghost gives = { λ h seat call reply scratch. reply ≡ (length h + 1) % 2 ^ 64 };

    ghost starves = { λ reply. false };

    fn serve(&mut self, _seat: u32, _call: &(), _scratch: &mut ()) -> u64 {
        thread::sleep(&self.clock, Duration::from_micros(100));
        self.made = self.made.wrapping_add(1);
        self.made
    }
}

/// Makes four turns. Returns whether each turn succeeded with the reply that is the turn's place plus 1.
fn wait_for_four<R: Clock + Drop, W: Wait + Sync>(
    rt: &W,
    turns: &Turns<Slow<R>>,
    mut seat: Seat<Slow<R>>,
) -> bool
    requires { seat.lock ≡ turns.now }
{
    for _ in 0..4 {
        let Ok(turn) = turns.turn(rt, &mut seat, &(), &mut ()) else {
            return false;
        };
        if turn.reply.wrapping_sub(turn.place) != 1 {
            return false;
        }
    }
    true
}

#[test]
fn each_of_eighty_that_sleep_is_woken(rt: HostRuntime) -> Result<(), Fail> {
    let alloc = rt.alloc();
    let slow = Slow {
        made: 0,
        clock: rt.clone()?,
    };
    let (turns, mut seat) = Turns::new(alloc, slow, 0)?;
    let seats = seats_for(alloc, &turns, &mut seat, SLEEPERS)?;
    let ended = {
        let (rt, turns) = (&rt, &turns);
        thread::map_vec(
            rt,
            seats,
            &move |seat: Seat<Slow<HostRuntime>>| -> bool
                requires { seat.lock ≡ turns.now }
            { wait_for_four(rt, turns, seat) },
        )?
    };
    assert!(rt; ended.iter().all(|done| *done));
    let after = turns.turn(&rt, &mut seat, &(), &mut ())?;
    assert_eq!(rt; (after.place, after.reply), (320, 321));
    Ok(())
}
