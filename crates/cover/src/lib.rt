// Whether the samples of a group chunk cover its pairs, each pair once.
#![tactic(auto)]

ghost use Rattle.std.specs.Prelude.{◌≡◌, ◌*◌, ◌%◌, ◌^◌, ◌≤◌, ◌<◌, ◌==◌, true, eqb, length, get_or, count_by};
ghost use Rattle.num.specs.Choice.{pick, each};
ghost use Rattle.cover.specs.Cover.{packs, covers, group_covers};

// How many of the offsets are this value.
fn times(offsets: &[u32], value: usize) -> usize
    ensures { result ≡ count_by (λ o. o == value) offsets.now }
{
    offsets.iter().filter(|o| **o as usize == value).count()
}

// How far apart the channels start: a whole block of samples with increment 1, else one pair.
fn unit_of(increment: usize, each: usize) -> usize
    requires { 0 < each }
    ensures { (result ≡ pick (eqb increment 1) each 1) × (0 < result) × (result ≤ each) }
{
    if increment == 1 { each } else { 1 }
}

// 1 to 16 channels, in blocks or in turn.
fn allowed(n: usize, increment: usize) -> bool
    ensures { result ≡ packs n increment }
{
    (1 <= n) & (n <= 16) & ((increment == 1) | (increment == n))
}

// Whether the offsets are the units in their order: then there is nothing to count.
fn in_order(offsets: &[u32], unit: usize) -> bool
    requires { length offsets.now * unit < 2 ^ 64 }
    ensures { result ≡ each (λ c. eqb (get_or offsets.now c 0) (c * unit)) (length offsets.now) }
{
    offsets
        .iter()
        .enumerate()
        .all(|(c, offset)| *offset as usize == c * unit)
}

// The test where there are pairs and the channels share them evenly: the n offsets are the units 0 to n - 1, in some
// order.
fn fills(pairs: usize, increment: usize, offsets: &[u32]) -> bool
    requires { (packs (length offsets.now) increment ≡ true) × (pairs % length offsets.now ≡ 0) × (0 < pairs) }
    ensures { result ≡ covers (length offsets.now) increment (λ c. get_or offsets.now c 0) pairs }
{
    let n = offsets.len();
    let unit = unit_of(increment, pairs / n);
    in_order(offsets, unit)
        || offsets.iter().enumerate().all(|(k, offset)| {
            let offset = *offset as usize;
            offset % unit == 0 && offset / unit < n && times(offsets, k * unit) == 1
        })
}

// Whether a group's packing is allowed (1 to 16 channels, increment 1 or n) and covers its pairs: as many samples for
// each channel, each pair that of exactly one of them. No pairs are covered by any packing that is allowed.
// Places and n are two parameters, as docs/CALLS.md has this call; `fills` gets the slice of the first n.
#[tactic(auto, using(crate::proofs::Laws::group_cases))]
pub fn covers(pairs: usize, n: usize, increment: usize, offsets: [u32; 16]) -> bool
    ensures { result ≡ group_covers pairs n increment offsets }
{
    if !allowed(n, increment) || pairs % n != 0 {
        return false;
    }
    pairs == 0 || fills(pairs, increment, &offsets[..n])
}
