//! Whether two structures are the same.

ghost use Rattle.std.specs.Prelude.{◌≡◌, ◌≤◌, ◌↔◌, IsTrue, take, map, length};
ghost use Rattle.dd_structure.specs.Columns.{distances_in, structure_of, IsWhole, HaveSameCounts, HaveSameFields};

use crate::columns::{Columns, Distances};
use crate::layer::Layer;
use crate::reading::chains::guarded_targets;
use sfu_base::Dti;

fn same_numbers(a: &[u8], b: &[u8]) -> bool
    ensures { IsTrue result ↔ (a.now ≡ b.now) }
{
    a == b
}

fn same_layers(a: &[Layer], b: &[Layer]) -> bool
    ensures { IsTrue result ↔ (a.now ≡ b.now) }
{
    a == b
}

fn same_indications(a: &[Dti], b: &[Dti]) -> bool
    ensures { IsTrue result ↔ (a.now ≡ b.now) }
{
    a == b
}

fn same_resolutions(a: &[(u32, u32)], b: &[(u32, u32)]) -> bool
    ensures { IsTrue result ↔ (a.now ≡ b.now) }
{
    a == b
}

/// Whether each row of `a` has the same first `targets` entries as the row of `b` with the same index.
fn same_indication_tables(a: &[[Dti; 32]], b: &[[Dti; 32]], targets: usize) -> bool
    requires targets { targets ≤ 32 }
    requires len { length a.now ≡ length b.now }
    ensures { IsTrue result ↔ (map (take targets) a.now ≡ map (take targets) b.now) }
{
    for i in 0..a.len() {
        if !same_indications(&a[i][..targets], &b[i][..targets]) {
            return false;
        }
    }
    true
}

fn same_distance_tables(a: &[Distances], b: &[Distances]) -> bool
    requires { length a.now ≡ length b.now }
    ensures { IsTrue result ↔ (map distances_in a.now ≡ map distances_in b.now) }
{
    for i in 0..a.len() {
        let x = &a[i];
        let y = &b[i];
        if !same_numbers(&x.items[..x.count as usize], &y.items[..y.count as usize]) {
            return false;
        }
    }
    true
}

/// Whether each row of `a` has the same first `chains` entries as the row of `b` with the same index.
fn same_link_tables(a: &[[u8; 32]], b: &[[u8; 32]], chains: usize) -> bool
    requires chains { chains ≤ 32 }
    requires len { length a.now ≡ length b.now }
    ensures { IsTrue result ↔ (map (take chains) a.now ≡ map (take chains) b.now) }
{
    for i in 0..a.len() {
        if !same_numbers(&a[i][..chains], &b[i][..chains]) {
            return false;
        }
    }
    true
}

fn same_counts(a: &Columns, b: &Columns) -> bool
    ensures { IsTrue result ↔ HaveSameCounts a.now b.now }
{
    a.offset == b.offset
        && a.target_count == b.target_count
        && a.chain_count == b.chain_count
        && a.template_count == b.template_count
}

fn same_fields(a: &Columns, b: &Columns) -> bool
    requires a { IsWhole a.now }
    requires b { IsWhole b.now }
    requires counts { HaveSameCounts a.now b.now }
    ensures { IsTrue result ↔ HaveSameFields a.now b.now }
{
    let count = a.template_count as usize;
    let guards = guarded_targets(a.chain_count, a.target_count) as usize;
    same_layers(&a.layers[..count], &b.layers[..count])
        && same_indication_tables(
            &a.indications[..count],
            &b.indications[..count],
            a.target_count as usize,
        )
        && same_distance_tables(&a.distances[..count], &b.distances[..count])
        && same_link_tables(&a.links[..count], &b.links[..count], a.chain_count as usize)
        && same_numbers(&a.guards[..guards], &b.guards[..guards])
        && same_resolutions(
            &a.resolutions.items[..a.resolutions.count as usize],
            &b.resolutions.items[..b.resolutions.count as usize],
        )
}

/// Whether `a` and `b` have the same counts and the same used entries.
pub fn same_columns(a: &Columns, b: &Columns) -> bool
    requires a { IsWhole a.now }
    requires b { IsWhole b.now }
    ensures { IsTrue result ↔ (structure_of a.now ≡ structure_of b.now) }
{
    if !same_counts(a, b) {
        return false;
    }
    same_fields(a, b)
}
