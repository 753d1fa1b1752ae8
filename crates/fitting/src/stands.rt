// How a token stands in an image.
ghost use Rattle.std.specs.Prelude.{◌≤◌, ◌≡◌, length};
ghost use Rattle.fitting.specs.Fitting.{fit_at};
ghost use Rattle.fitting.specs.Answers.{stand_of};

// How a token stands with its right edge at an end: it fits; the place farthest right at which it differs from the image; or it is cut off, as
// it begins left of the image and agrees with all that it lies over.
#[derive(Clone, Copy)]
pub enum Fit {
    Fits,
    Differs(usize),
    CutOff,
}

// How the body stands at an end within the image: one comparison, from the right. Not inlined: within `fit` the loop of `agree::mismatch`
// took an instruction more a byte.
#[inline(never)]
pub fn fit_at(body: &[u8], image: &[u8], end: usize) -> Fit
    requires { end ≤ length image.now }
    ensures { stand_of result ≡ fit_at body.now image.now end }
{
    match agree::mismatch(body, 0, &image[..end]) {
        Some(k) => Fit::Differs(end - 1 - k),
        None if end < body.len() => Fit::CutOff,
        None => Fit::Fits,
    }
}
