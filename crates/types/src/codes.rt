// The codes of strategies and modes, their places in the order of types.rs, and of the co-pol band, its number.
ghost use Rattle.std.specs.Prelude.{◌≡◌};
ghost use Rattle.types.specs.Codes.{strategy_of, mode_of, copol_of, named};

use crate::{AutoscaleStrategy, CoPol, SyntheticRgbMode};
use std::error::Error;
use std::fmt;

// A code that names nothing.
#[derive(Clone, Copy, Debug, PartialEq, Eq)]
pub struct UnknownCode {
    pub code: u8,
}

impl TryFrom<u8> for AutoscaleStrategy {
    type Error = UnknownCode;

    ghost try_from_gives = { λ code r. r ≡ named code (strategy_of code) };

    #[tactic(auto, unfolding(crate::specs::Codes::strategy_of))]
    fn try_from(code: u8) -> Result<Self, UnknownCode> {
        match code {
            0 => Ok(AutoscaleStrategy::Standard),
            1 => Ok(AutoscaleStrategy::Robust),
            2 => Ok(AutoscaleStrategy::Adaptive),
            3 => Ok(AutoscaleStrategy::Equalized),
            4 => Ok(AutoscaleStrategy::Clahe),
            5 => Ok(AutoscaleStrategy::Tamed),
            6 => Ok(AutoscaleStrategy::Default),
            _ => Err(UnknownCode { code }),
        }
    }
}

impl TryFrom<u8> for SyntheticRgbMode {
    type Error = UnknownCode;

    ghost try_from_gives = { λ code r. r ≡ named code (mode_of code) };

    #[tactic(auto, unfolding(crate::specs::Codes::mode_of))]
    fn try_from(code: u8) -> Result<Self, UnknownCode> {
        match code {
            0 => Ok(SyntheticRgbMode::Default),
            1 => Ok(SyntheticRgbMode::RgbRatio),
            2 => Ok(SyntheticRgbMode::SarUrban),
            3 => Ok(SyntheticRgbMode::Enhanced),
            _ => Err(UnknownCode { code }),
        }
    }
}

impl TryFrom<u8> for CoPol {
    type Error = UnknownCode;

    ghost try_from_gives = { λ code r. r ≡ named code (copol_of code) };

    #[tactic(auto, unfolding(crate::specs::Codes::copol_of))]
    fn try_from(code: u8) -> Result<Self, UnknownCode> {
        match code {
            1 => Ok(CoPol::Band1),
            2 => Ok(CoPol::Band2),
            _ => Err(UnknownCode { code }),
        }
    }
}

impl fmt::Display for UnknownCode {
    fn fmt<W: fmt::Write>(&self, f: &mut fmt::Formatter<W>) -> fmt::Result {
        write!(f, "no code {}", self.code)
    }
}

impl Error for UnknownCode {}
