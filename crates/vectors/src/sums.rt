// Sums of a picture, by which a painted picture is compared.
ghost use Rattle.std.specs.Prelude.{◌≡◌, ◌<◌};
ghost use Rattle.vectors.specs.Sums.{summed};

// The sum of a picture by a factor.
pub fn sum(pic: &[u8], factor: u64) -> u64
    requires { factor < 65536 }
    ensures { result ≡ summed factor 0 pic.now }
{
    let mut total: u64 = 0;
    for &byte in pic {
        total = (total * factor + byte as u64 + 1) % 281474976710597;
    }
    total
}
