// The ratio test: whether a stone has the size that its ring asks for (detect.rs, `is_capstone`).
#![tactic(auto)]

ghost use Rattle.std.specs.Prelude.{◌≡◌, ◌≤◌, ◌<◌};
ghost use Rattle.rings.specs.Ratio.{most_pixels, ring_like};

// Whether a stone of so many pixels suits a ring of so many.
#[tactic(auto, unfolding(crate::specs::Ratio::ring_like, crate::specs::Ratio::ratio))]
pub fn is_ring_like(stone: u32, ring: u32) -> bool
    requires { (stone ≤ most_pixels) × (0 < ring) }
    ensures { result ≡ ring_like stone ring }
{
    let ratio = stone * 100 / ring;
    10 < ratio && ratio < 70
}
