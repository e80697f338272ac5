//! A part of a list.

ghost use Rattle.std.specs.Prelude.{◌≡◌, ◌≤◌, ◌-◌, map, string_bytes};
ghost use Rattle.t1_many.specs.Shards.{part_of, start_of};

use t1_options::Shard;

/// The names of a part of a list. Each part begins where the one before it ends.
pub fn names_of_part(names: &[String], shard: Shard) -> &[String]
    ensures { 1 ≤ shard.part → shard.part ≤ shard.parts
        → map string_bytes result.now ≡ part_of shard.parts (map string_bytes names.now) (shard.part - 1) }
{
    let end = start_of(names.len(), shard.part, shard.parts);
    let start = start_of(names.len(), shard.part.saturating_sub(1), shard.parts);
    if end < start {
        return &[];
    }
    &names[start..end]
}

/// Where the part that comes after so many others begins.
fn start_of(count: usize, part: u32, parts: u32) -> usize
    ensures bound { result ≤ count }
    ensures start { 1 ≤ parts → part ≤ parts → result ≡ start_of parts count part }
{
    if parts == 0 {
        return 0;
    }
    let start = u128::from(part) * (count as u128) / u128::from(parts);
    if start < count as u128 {
        start as usize
    } else {
        count
    }
}
