// The answer of the window call, in document 01's form.
ghost use Rattle.std.specs.Prelude.{◌≡◌};
ghost use Rattle.types.specs.Windows.{window_answer};

use crate::WindowFloats;

// "A window answer is a window with its floats, or blank", or a refusal (1 to 4 only), by its number.
#[derive(Clone, Copy, Debug, PartialEq)]
pub enum WindowAnswer {
    Window {
        low: f64,
        high: f64,
        range: f64,
        gamma: f64,
    },
    Blank,
    Refused(u8),
}

impl WindowAnswer {
    // The answer that a window is, or that none is.
    #[tactic(auto, unfolding(crate::specs::Windows::window_answer))]
    pub fn of(window: Option<WindowFloats>) -> WindowAnswer
        ensures { result ≡ window_answer window }
    {
        match window {
            Some(window) => WindowAnswer::Window {
                low: window.low,
                high: window.high,
                range: window.range,
                gamma: window.gamma,
            },
            None => WindowAnswer::Blank,
        }
    }
}
