//! Fields after those that are written already. Each call is given the room that it takes.
ghost use Rattle.std.specs.Prelude.{◌≡◌, ◌<◌, ◌≤◌, ◌+◌, ◌++◌, length, All};
ghost use Rattle.std.specs.List.{flat_map, AllByRecursion};
ghost use Rattle.arrayvec.specs.ArrayVec.{array_vec_len};
ghost use Rattle.avl_values.specs.NxElements.{nx_size};
ghost use Rattle.avl_values.specs.RecordValue.{pairs_of};
ghost use Rattle.avl_values.specs.Width.{bytes_of, limit};
ghost use Rattle.avl_values.specs.declared.width.Width.TheVariants.{W1, W2};
ghost use Rattle.layout.specs.Bytes.{AreBytes};
ghost use Rattle.record_layout.specs.Spelling.{PartFits, pair_bytes, part_bytes, spell, triple_bytes};
ghost use Rattle.record_layout.specs.declared.part.Part.TheVariants.{Pairs, Triples};
ghost use Rattle.record_writing.specs.Length.{pairs_length, part_length, triples_length};

use arrayvec::ArrayVec;
use avl_values::{Io, NxList, Width};
use layout::put_all;

/// A number in N bytes.
pub fn put(out: &mut ArrayVec<u8, 255>, width: Width, n: u64)
    requires room { array_vec_len out.old + bytes_of width ≤ 255 }
    requires fits { n < limit width }
    ensures bytes { out.new.items ≡ out.old.items ++ spell width n }
    ensures len { array_vec_len out.new ≡ array_vec_len out.old + bytes_of width }
{
    match width {
        Width::W1 => out.push(n as u8),
        Width::W2 => put_all(out, &(n as u16).to_be_bytes()),
        Width::W4 => put_all(out, &(n as u32).to_be_bytes()),
        Width::W8 => put_all(out, &n.to_be_bytes()),
    }
}

/// The elements of one width as pairs of id and value, in their order.
fn put_pairs(out: &mut ArrayVec<u8, 255>, ids: Width, width: Width, ios: &[Io])
    requires room { array_vec_len out.old + pairs_length ids width (pairs_of width ios.now) ≤ 255 }
    requires ids { ids ≡ W1 → All (λ io. io.id < 256) ios.now }
    ensures bytes { out.new.items ≡ out.old.items ++ flat_map (pair_bytes ids width) (pairs_of width ios.now) }
    ensures len { array_vec_len out.new ≡ array_vec_len out.old + pairs_length ids width (pairs_of width ios.now) }
    ensures fit { AllByRecursion (λ e. (e.0 < limit ids) × (e.1 < limit width)) (pairs_of width ios.now) }
{
    for io in ios {
        if io.width() == width {
            put(out, ids, u64::from(io.id()));
            put(out, width, io.value());
        }
    }
}

/// How many elements are of this width.
fn count(width: Width, ios: &[Io]) -> usize
    ensures is { result ≡ length (pairs_of width ios.now) }
    ensures most { result ≤ length ios.now }
{
    let mut n = 0;
    for io in ios {
        if io.width() == width {
            n += 1;
        }
    }
    n
}

/// The group of the elements of one width: how many they are, and their pairs.
pub fn put_group(out: &mut ArrayVec<u8, 255>, counts: Width, ids: Width, width: Width, ios: &[Io])
    requires room { array_vec_len out.old + part_length (Pairs counts ids width) (pairs_of width ios.now) ≤ 255 }
    requires ids { ids ≡ W1 → All (λ io. io.id < 256) ios.now }
    requires few { length ios.now < limit counts }
    ensures bytes { out.new.items ≡ out.old.items ++ part_bytes (Pairs counts ids width) (pairs_of width ios.now) }
    ensures len { array_vec_len out.new ≡ array_vec_len out.old + part_length (Pairs counts ids width) (pairs_of width ios.now) }
    ensures fit { PartFits (Pairs counts ids width) (pairs_of width ios.now) }
{
    put(out, counts, count(width, ios) as u64);
    put_pairs(out, ids, width, ios);
}

/// The elements of any length as triples of id, length and bytes.
fn put_triples(out: &mut ArrayVec<u8, 255>, nx: &NxList)
    requires { array_vec_len out.old + triples_length W2 W2 nx.now ≤ 255 }
    ensures bytes { out.new.items ≡ out.old.items ++ flat_map (triple_bytes W2 W2) nx.now }
    ensures len { array_vec_len out.new ≡ array_vec_len out.old + triples_length W2 W2 nx.now }
    ensures fit { AllByRecursion (λ e. (e.0 < limit W2) × (length e.1 < limit W2) × AreBytes e.1) nx.now }
{
    for i in 0..nx.len() {
        let bytes = nx.bytes_at(i);
        put(out, Width::W2, u64::from(nx.id_at(i)));
        put(out, Width::W2, bytes.len() as u64);
        put_all(out, bytes);
    }
}

/// The group of the elements of any length.
#[tactic(auto, using(crate::proofs::Groups::triples_count))]
pub fn put_nx(out: &mut ArrayVec<u8, 255>, nx: &NxList)
    requires { array_vec_len out.old + part_length (Triples W2 W2 W2) nx.now ≤ 255 }
    ensures bytes { out.new.items ≡ out.old.items ++ part_bytes (Triples W2 W2 W2) nx.now }
    ensures len { array_vec_len out.new ≡ array_vec_len out.old + part_length (Triples W2 W2 W2) nx.now }
    ensures fit { PartFits (Triples W2 W2 W2) nx.now }
{
    put(out, Width::W2, nx.len() as u64);
    put_triples(out, nx);
}
