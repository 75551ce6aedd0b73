// Scripts for `together` with their parts, or with the number of the line outside the grammar.
use super::read_actors;
use script_texts::Actors;
use sfu_base::{Call, MemSink, MemSource};
use sfu_driver::Status;
use std::alloc::{AllocError, Global};
use std::test::Fail;

// Returns the subscriber of each take, or 0 for any other call.
fn subscribers(alloc: Global, calls: &[Call]) -> Result<Vec<u32>, AllocError> {
    let mut numbers = Vec::new(alloc);
    for call in calls {
        numbers.push(match call {
            Call::Take { subscriber } => *subscriber,
            _ => 0,
        })?;
    }
    Ok(numbers)
}

// Returns the result for a script, and the text written.
fn read(alloc: Global, script: &[u8]) -> Result<(Result<Actors, Status>, Vec<u8>), AllocError> {
    let mut source = MemSource::new(script.to_vec(alloc)?, Vec::new(alloc));
    let mut sink = MemSink::new(alloc, Vec::new(alloc));
    let read = read_actors(alloc, &mut source, &mut sink);
    Ok((read, sink.written().to_vec(alloc)?))
}

#[test]
fn a_script_says_its_parts(rt: HostRuntime) -> Result<(), Fail> {
    let alloc = rt.alloc();
    // Each row has a script, and then the takes of the opening part, of actors 1, 2 and 8, and of the closing part.
    let rows: [(&str, [&[u32]; 5]); 6] = [
        ("", [&[], &[], &[], &[], &[]]),
        ("take 1\n# a\ntake 2", [&[1, 2], &[], &[], &[], &[]]),
        ("@1 take 1\n@8 take 8\n", [&[], &[1], &[], &[8], &[]]),
        (
            "take 1\n@2 take 2\n\n@1 take 3\r\n@2 take 4\ntake 5\n# b\ntake 6\n",
            [&[1], &[3], &[2, 4], &[], &[5, 6]],
        ),
        (
            "@1 take 1\n# @2 take 2\ntake 3\n",
            [&[], &[1], &[], &[], &[3]],
        ),
        ("@1 leave 7\n@1 take 1\n", [&[], &[0, 1], &[], &[], &[]]),
    ];
    for (script, takes) in rows {
        let (read, written) = read(alloc, script.as_bytes())?;
        let Ok(actors) = read else {
            panic!(rt; "no script: {script}")
        };
        let [opening, one, two, eight, closing] = takes;
        assert_eq!(rt;
            subscribers(alloc, actors.opening.calls())?.as_slice(),
            opening,
            "{script}"
        );
        assert_eq!(rt;
            subscribers(alloc, actors.actors[0].calls())?.as_slice(),
            one,
            "{script}"
        );
        assert_eq!(rt;
            subscribers(alloc, actors.actors[1].calls())?.as_slice(),
            two,
            "{script}"
        );
        assert_eq!(rt;
            subscribers(alloc, actors.actors[7].calls())?.as_slice(),
            eight,
            "{script}"
        );
        assert_eq!(rt;
            subscribers(alloc, actors.closing.calls())?.as_slice(),
            closing,
            "{script}"
        );
        assert!(rt; written.is_empty(), "{script}");
    }
    Ok(())
}

#[test]
fn the_first_line_outside_the_grammar_is_named(rt: HostRuntime) -> Result<(), Fail> {
    let alloc = rt.alloc();
    let rows = [
        ("take 1\ntake 01\n@1 take 1\n", "line 2\n"),
        ("@1 take 1\ntake 2\n@1 take 3\n", "line 3\n"),
        ("take 1\n@2 take 2\n# a\ntake 3\n\n@2 take 4\n", "line 6\n"),
        ("@0 take 1\n", "line 1\n"),
        ("@9 take 1\n", "line 1\n"),
        ("@1 # c\n", "line 1\n"),
        ("@1 \n", "line 1\n"),
    ];
    for (script, line) in rows {
        let (read, written) = read(alloc, script.as_bytes())?;
        let Err(status) = read else {
            panic!(rt; "a script: {script}")
        };
        assert_eq!(rt; status.number(), 5, "{script}");
        assert_eq!(rt; written.as_slice(), line.as_bytes(), "{script}");
    }
    Ok(())
}

#[test]
fn the_100_001st_line_is_outside_the_grammar(rt: HostRuntime) -> Result<(), Fail> {
    let alloc = rt.alloc();
    let mut script = vec![in alloc; b'\n'; 100_000]?;
    let (whole, _) = read(alloc, script.as_slice())?;
    assert!(rt; whole.is_ok());
    script.push(b'\n')?;
    let (one_more, written) = read(alloc, script.as_slice())?;
    assert!(rt; one_more.is_err());
    assert_eq!(rt; written.as_slice(), b"line 100001\n".as_slice());
    Ok(())
}
