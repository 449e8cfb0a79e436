#![tactic(auto)]
// Synthetic RGB colours of two bands: by default, and suppressed above a floor.
ghost use Rattle.std.specs.Prelude.{◌≡◌, ◌*◌, ◌≤◌, length};
ghost use Rattle.spec.specs.Answer.{number, reply_number, after};
ghost use Rattle.spec.specs.Colour.{bytes_of, colours_of, create_synthetic_rgb_by_mode_and_strategy};

use types::{AutoscaleStrategy, Refusal, SyntheticRgbMode};

mod bands;
mod blue;
mod floor;
mod palette;
mod pixels;

use bands::Bands;
use palette::Palette;

// Which colours: the default ones, or the suppressed ones above a floor.
// Kept: an enum of its own and no Option<u8>: its names say more than None and Some(f).
#[derive(Clone, Copy, Debug, PartialEq, Eq)]
pub enum Composition {
    Plain,
    Suppressed(u8),
}

// The colours of one mode under one strategy, for lists whose lengths are known to be right: "all modes agree".
pub fn compose_by_mode_and_strategy(
    _mode: SyntheticRgbMode,
    strategy: AutoscaleStrategy,
    band1_data: &[u8],
    band2_data: &[u8],
    rgb_data: &mut [u8],
)
    requires { (length band2_data.now ≡ length band1_data.now) × (length rgb_data.old ≡ 3 * length band1_data.now) × (length band1_data.now ≤ 16777216) }
    ensures { rgb_data.new ≡ bytes_of (colours_of strategy band1_data.now band2_data.now) }
{
    let bands = Bands {
        first: band1_data,
        second: band2_data,
    };
    match strategy {
        AutoscaleStrategy::Tamed | AutoscaleStrategy::Clahe => {
            let f = floor::floor_level(&bands);
            Palette::suppressed(f).colours(&bands, rgb_data)
        }
        _ => Palette::plain().colours(&bands, rgb_data),
    }
}

// Composition as a call: the lengths are tested first.
#[tactic(auto, unfolding(spec::specs::Colour::create_synthetic_rgb_by_mode_and_strategy, spec::specs::Answer::first_of, spec::specs::Answer::or_refused, spec::specs::Answer::answer, spec::specs::Answer::number, spec::specs::Answer::reply_number, types::specs::Replies::refusal_number, spec::specs::Answer::after, spec::specs::Refusals::too_long, spec::specs::Refusals::unlike))]
pub fn create_synthetic_rgb_by_mode_and_strategy(
    mode: SyntheticRgbMode,
    strategy: AutoscaleStrategy,
    band1_data: &[u8],
    band2_data: &[u8],
    rgb_data: &mut [u8],
) -> Result<(), Refusal>
    ensures result_value { reply_number result ≡ number (create_synthetic_rgb_by_mode_and_strategy mode strategy band1_data.now band2_data.now (length rgb_data.old)) }
    ensures rgb_data_after { rgb_data.new ≡ after (λ l. l) (create_synthetic_rgb_by_mode_and_strategy mode strategy band1_data.now band2_data.now (length rgb_data.old)) rgb_data.old }
{
    if band2_data.len() != band1_data.len() {
        return Err(Refusal::Lengths);
    }
    if 16777216 < band1_data.len() {
        return Err(Refusal::Lengths);
    }
    if rgb_data.len() != 3 * band1_data.len() {
        return Err(Refusal::Lengths);
    }
    compose_by_mode_and_strategy(mode, strategy, band1_data, band2_data, rgb_data);
    Ok(())
}
