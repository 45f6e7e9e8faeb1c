ghost use Rattle.std.specs.Prelude.{◌≡◌, ◌≤◌, ◌*◌, length, sum_by};
ghost use Rattle.tr_run.specs.Texts.{pixel_sum};

use tr_screen::Screen;

/// The sum of all pixels of a screen.
pub(crate) fn sum_of(screen: &Screen) -> u64
    ensures { result ≡ pixel_sum screen.now }
{
    let mut sum = 0;
    for v in 0..screen.size().high {
        sum += sum_of_row(screen.row(v));
    }
    sum
}

/// The sum of the pixels of a row.
fn sum_of_row(row: &[u8]) -> u64
    requires { length row.now ≤ 1024 }
    ensures sum { result ≡ sum_by (λ pixel. pixel) row.now }
    ensures most { result ≤ 255 * length row.now }
{
    let mut sum = 0;
    for pixel in row {
        sum += u64::from(*pixel);
    }
    sum
}
