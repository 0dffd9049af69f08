// A picture of the slice pool: the first 128 slices, '.' for a free one and '#' for one that is taken.
ghost use Rattle.std.specs.Prelude.{◌≡◌, ◌≤◌, length};
ghost use Rattle.worked_parts.specs.Picture.{mark_of, Shows};

// The character of slice j.
#[tactic(auto, unfolding(bitmap::specs::Bits::bit, bitmap::specs::Bits::bit_at))]
fn mark(pool: &[u32], j: usize) -> u8
    requires { (j ≤ 127) × (4 ≤ length pool.now) }
    ensures { result ≡ mark_of pool.now j }
{
    if (pool[j / 32] >> (j % 32) as u32) % 2 == 1 {
        b'.'
    } else {
        b'#'
    }
}

// The characters of the first 128 slices.
pub fn draw(pool: &[u32]) -> [u8; 128]
    requires { 4 ≤ length pool.now }
    ensures { (128 ≡ length result) × Shows pool.now 128 result }
{
    let mut text = [b'#'; 128];
    for j in 0..128 {
        text[j] = mark(pool, j);
    }
    text
}
