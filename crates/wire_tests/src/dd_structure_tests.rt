use dd_bits::{BitReader, BitWriter, NoRoom};
use dd_structure::*;
use sfu_base::{Dti, Wish};
use std::process::Abort;
use std::test::Fail;

/// The contents that a template is expected to have.
#[derive(Clone, Copy)]
struct Row {
    layer: Layer,
    indications: &'static [Dti],
    distances: &'static [u8],
    links: &'static [u8],
}

const S: Dti = Dti::Switch;

const R: Dti = Dti::Required;

const D: Dti = Dti::Discardable;

const N: Dti = Dti::NotPresent;

const fn template(
    spatial: u8,
    temporal: u8,
    indications: &'static [Dti],
    distances: &'static [u8],
    links: &'static [u8],
) -> Row {
    Row {
        layer: Layer { spatial, temporal },
        indications,
        distances,
        links,
    }
}

/// The five flag bits of a descriptor. Only template_dependency_structure_present_flag is set.
const FLAGS: u32 = 0b10000;

/// A structure with one target, which is protected by one chain. Template 0 is for a key frame. Template 1 is for a frame that refers to the previous
/// frame.
const A: [u8; 6] = [0x80, 0x00, 0x3a, 0x41, 0x01, 0x00];

/// A structure with two spatial layers. Each target is protected by its own chain.
const C: [u8; 13] = [
    0x80, 0x01, 0x23, 0xee, 0x88, 0x45, 0x04, 0x22, 0xe0, 0x02, 0x11, 0x11, 0x10,
];

/// Structure `C` with the resolutions 640 x 360 and 1280 x 720.
const C_RESOLUTIONS: [u8; 21] = [
    0x80, 0x01, 0x23, 0xee, 0x88, 0x45, 0x04, 0x22, 0xe0, 0x02, 0x11, 0x11, 0x18, 0x13, 0xf8, 0x0b,
    0x38, 0x27, 0xf8, 0x16, 0x78,
];

/// A structure with two spatial layers, two temporal layers and four targets.
const D_BYTES: [u8; 22] = [
    0x80, 0x03, 0x18, 0x7f, 0xaf, 0xac, 0x4a, 0x0a, 0x04, 0x04, 0xd1, 0x41, 0x09, 0xa1, 0x15, 0x80,
    0x08, 0x64, 0x22, 0x22, 0x26, 0x40,
];

fn read(bytes: &[u8]) -> Result<Structure, Fail> {
    let mut bits = BitReader::new(bytes);
    bits.bits(5)?;
    Ok(Structure::read(&mut bits)?)
}

/// Checks that the structure has the contents given by `guards` and `rows`. Then checks that writing the structure gives `bytes`, from which it was read.
fn expect(
    rt: &impl Abort,
    bytes: &[u8],
    structure: &Structure,
    guards: &[u8],
    rows: &[Row],
) -> Result<(), Fail> {
    assert_eq!(rt; structure.offset(), 0);
    assert_eq!(rt; structure.guards(), guards);
    assert_eq!(rt; structure.target_count() as usize, guards.len());
    assert_eq!(rt; structure.template_count() as usize, rows.len());
    let mut template = 0;
    for row in rows {
        assert!(rt; template < structure.template_count());
        assert_eq!(rt; structure.layer(template), row.layer);
        assert_eq!(rt; structure.indications(template), row.indications);
        assert_eq!(rt; structure.distances(template), row.distances);
        assert_eq!(rt; structure.links(template), row.links);
        template += 1;
    }
    let mut out = BitWriter::new();
    out.put(5, FLAGS)?;
    structure.write(&mut out)?;
    assert_eq!(rt; out.bytes(), bytes);
    Ok(())
}

#[test]
fn structures_are_read_field_by_field_and_written_back(rt: HostRuntime) -> Result<(), Fail> {
    let a = [
        template(0, 0, &[S], &[], &[0]),
        template(0, 0, &[S], &[1], &[1]),
    ];
    expect(&rt, &A, &read(&A)?, &[0], &a)?;
    let c = [
        template(0, 0, &[R, S], &[], &[0, 0]),
        template(0, 0, &[R, S], &[2], &[2, 1]),
        template(1, 0, &[S, N], &[1], &[1, 1]),
        template(1, 0, &[S, N], &[1, 2], &[1, 1]),
    ];
    expect(&rt, &C, &read(&C)?, &[1, 0], &c)?;
    expect(&rt, &C_RESOLUTIONS, &read(&C_RESOLUTIONS)?, &[1, 0], &c)?;
    let d = [
        template(0, 0, &[R, R, S, S], &[], &[0, 0]),
        template(0, 0, &[R, R, S, S], &[4], &[4, 3]),
        template(0, 1, &[R, N, D, N], &[2], &[2, 1]),
        template(1, 0, &[S, S, N, N], &[1], &[1, 1]),
        template(1, 0, &[S, S, N, N], &[1, 4], &[1, 1]),
        template(1, 1, &[D, N, N, N], &[1, 2], &[3, 2]),
    ];
    expect(&rt, &D_BYTES, &read(&D_BYTES)?, &[1, 1, 0, 0], &d)
}

/// A structure that a test writes. Its layer codes are first those in `codes`, then the code 0 (same layer) `same` times, and last `end`. It has `targets`
/// decode targets and `chains` chains, and each template has `distances` distances.
#[derive(Clone, Copy)]
struct Case {
    codes: &'static [u32],
    same: u32,
    end: u32,
    targets: u32,
    chains: u32,
    distances: u32,
    /// The expected result of reading: the greatest spatial id and the greatest temporal id, or a fault.
    found: Result<(u8, u8), StructureFault>,
}

const PLAIN: Case = Case {
    codes: &[],
    same: 1,
    end: 3,
    targets: 1,
    chains: 1,
    distances: 1,
    found: Ok((0, 0)),
};

fn put(out: &mut BitWriter, n: u8, value: u32) -> Result<(), NoRoom> {
    if n <= 16 && value < 1 << n {
        out.put(n, value)
    } else {
        Err(NoRoom)
    }
}

fn put_ns(out: &mut BitWriter, n: u32, value: u32) -> Result<(), NoRoom> {
    if n <= 64 && value < n {
        out.put_ns(n, value)
    } else {
        Err(NoRoom)
    }
}

fn templates(case: &Case) -> u32 {
    case.same.saturating_add((case.codes.len() % 64) as u32 + 1)
}

fn put_head(out: &mut BitWriter, case: &Case) -> Result<(), NoRoom> {
    put(out, 6, 5)?;
    put(out, 5, case.targets.saturating_sub(1))?;
    for code in case.codes {
        put(out, 2, *code)?;
    }
    for _ in 0..case.same {
        put(out, 2, 0)?;
    }
    put(out, 2, case.end)
}

/// Writes the templates. Every indication is Required, and every frame distance is 16.
fn put_templates(out: &mut BitWriter, case: &Case) -> Result<(), NoRoom> {
    for _ in 0..templates(case) {
        for _ in 0..case.targets {
            put(out, 2, 3)?;
        }
    }
    for _ in 0..templates(case) {
        for _ in 0..case.distances {
            put(out, 5, 0b11111)?;
        }
        put(out, 1, 0)?;
    }
    Ok(())
}

/// Writes the chains. Every target is protected by the last chain, and every link is 15.
fn put_chains(out: &mut BitWriter, case: &Case) -> Result<(), NoRoom> {
    put_ns(out, case.targets.saturating_add(1), case.chains)?;
    if case.chains > 0 {
        for _ in 0..case.targets {
            put_ns(out, case.chains, case.chains - 1)?;
        }
    }
    for _ in 0..templates(case) {
        for _ in 0..case.chains {
            put(out, 4, 15)?;
        }
    }
    Ok(())
}

/// Writes the resolutions. Each resolution has the greatest width, 65,536 pixels, and the least height, 1 pixel.
fn put_resolutions(out: &mut BitWriter, case: &Case) -> Result<(), NoRoom> {
    put(out, 1, 1)?;
    put(out, 16, 0xffff)?;
    put(out, 16, 0)?;
    for code in case.codes {
        if *code == 2 {
            put(out, 16, 0xffff)?;
            put(out, 16, 0)?;
        }
    }
    Ok(())
}

fn written(case: &Case, resolutions: bool) -> Result<BitWriter, NoRoom> {
    let mut out = BitWriter::new();
    put_head(&mut out, case)?;
    put_templates(&mut out, case)?;
    put_chains(&mut out, case)?;
    if resolutions {
        put_resolutions(&mut out, case)?;
    } else {
        put(&mut out, 1, 0)?;
    }
    Ok(out)
}

fn expect_case(rt: &impl Abort, case: &Case, resolutions: bool) -> Result<(), Fail> {
    let out = written(case, resolutions)?;
    let mut bits = BitReader::new(out.bytes());
    let before = bits.left();
    match (Structure::read(&mut bits), case.found) {
        (Ok(structure), Ok((spatial, temporal))) => {
            assert_eq!(rt; structure.offset(), 5);
            assert_eq!(rt; structure.template_count() as u32, templates(case));
            assert_eq!(rt; structure.target_count() as u32, case.targets);
            assert_eq!(rt; structure.chain_count() as u32, case.chains);
            assert_eq!(rt; structure.pair(0), Some(Wish { spatial, temporal }));
            assert!(rt; bits.left() < 8);
            let mut again = BitWriter::new();
            structure.write(&mut again)?;
            assert_eq!(rt; again.bytes(), out.bytes());
        }
        (Err(found), Err(fault)) => {
            assert_eq!(rt; found, fault);
            assert_eq!(rt; bits.left(), before);
        }
        _ => assert!(rt; false),
    }
    Ok(())
}

#[test]
fn structures_are_read_up_to_their_limits(rt: HostRuntime) -> Result<(), Fail> {
    let cases = [
        PLAIN,
        Case { same: 63, ..PLAIN },
        Case {
            same: 64,
            found: Err(StructureFault::Templates),
            ..PLAIN
        },
        Case {
            distances: 16,
            ..PLAIN
        },
        Case {
            distances: 17,
            found: Err(StructureFault::References),
            ..PLAIN
        },
        Case {
            codes: &[2, 2, 2],
            found: Ok((3, 0)),
            ..PLAIN
        },
        Case {
            codes: &[2, 2, 2, 2],
            found: Err(StructureFault::Layer),
            ..PLAIN
        },
        Case {
            codes: &[1, 1, 1, 1, 1, 1, 1],
            found: Ok((0, 7)),
            ..PLAIN
        },
        Case {
            codes: &[1, 1, 1, 1, 1, 1, 1, 1],
            found: Err(StructureFault::Layer),
            ..PLAIN
        },
        // The temporal id restarts at 0 when the spatial id rises.
        Case {
            codes: &[1, 1, 2, 1],
            found: Ok((1, 2)),
            ..PLAIN
        },
        Case { chains: 0, ..PLAIN },
        Case {
            targets: 32,
            chains: 0,
            ..PLAIN
        },
        Case {
            targets: 32,
            chains: 32,
            ..PLAIN
        },
        Case {
            same: 63,
            targets: 32,
            chains: 32,
            ..PLAIN
        },
        // Of two faults at the same place, that of the layer is reported; of faults at different places, the first one.
        Case {
            codes: &[2, 2, 2],
            same: 60,
            end: 2,
            found: Err(StructureFault::Layer),
            ..PLAIN
        },
        Case {
            same: 64,
            distances: 17,
            found: Err(StructureFault::Templates),
            ..PLAIN
        },
    ];
    for case in &cases {
        for resolutions in [false, true] {
            expect_case(&rt, case, resolutions)?;
        }
    }
    Ok(())
}

#[test]
fn a_structure_that_is_cut_is_short(rt: HostRuntime) -> Result<(), Fail> {
    for count in 1..C_RESOLUTIONS.len() {
        let mut bits = BitReader::new(&C_RESOLUTIONS[..count]);
        bits.bits(5)?;
        let before = bits.left();
        assert_eq!(rt;
            Structure::read(&mut bits).err(),
            Some(StructureFault::Short)
        );
        assert_eq!(rt; bits.left(), before);
    }
    Ok(())
}

#[test]
fn a_structure_takes_the_place_of_another(rt: HostRuntime) -> Result<(), Fail> {
    let mut place = None;
    for bytes in [
        D_BYTES.as_slice(),
        C.as_slice(),
        C_RESOLUTIONS.as_slice(),
        D_BYTES.as_slice(),
    ] {
        let mut bits = BitReader::new(bytes);
        bits.bits(5)?;
        Structure::read_into(&mut bits, &mut place)?;
        let wanted = read(bytes)?;
        assert!(rt; matches!(&place, Some(found) if found.same(&wanted)));
    }
    let mut bits = BitReader::new(&D_BYTES[..10]);
    bits.bits(5)?;
    let result = Structure::read_into(&mut bits, &mut place);
    assert_eq!(rt; result, Err(StructureFault::Short));
    assert!(rt; place.is_none());
    Ok(())
}

#[test]
fn structures_are_compared_and_their_targets_have_greatest_layers(
    rt: HostRuntime,
) -> Result<(), Fail> {
    let c = read(&C)?;
    assert_eq!(rt;
        c.pair(0),
        Some(Wish {
            spatial: 1,
            temporal: 0
        })
    );
    assert_eq!(rt;
        c.pair(1),
        Some(Wish {
            spatial: 0,
            temporal: 0
        })
    );
    assert_eq!(rt; c.pair(2), None);
    let d = read(&D_BYTES)?;
    for (target, spatial, temporal) in [(0, 1, 1), (1, 1, 0), (2, 0, 1), (3, 0, 0)] {
        assert_eq!(rt; d.pair(target), Some(Wish { spatial, temporal }));
    }
    assert!(rt; c.same(&c.copied()));
    assert!(rt; !c.same(&d));
    assert!(rt; !c.same(&read(&C_RESOLUTIONS)?));
    Ok(())
}
