#![tactic(auto)]
// The enums of types.rs that the calls take, in its order, what refuses a call, and the records that calls and their parts give.
mod codes; // codes.rt: the codes of the enums, and what names nothing
mod refusal; // refusal.rt: the rows of the table of replies
mod window; // window.rt: the answer of the window call

pub use codes::UnknownCode;
pub use refusal::Refusal;
pub use window::WindowAnswer;

#[derive(Clone, Copy, Debug, PartialEq, Eq)]
pub enum PolarizationOperation {
    Sum,
    Diff,
    Ratio,
    NDiff,
    LogRatio,
}

#[derive(Clone, Copy, Debug, PartialEq, Eq)]
pub enum AutoscaleStrategy {
    Standard,
    Robust,
    Adaptive,
    Equalized,
    Clahe,
    Tamed,
    Default,
}

#[derive(Clone, Copy, Debug, PartialEq, Eq)]
pub enum SyntheticRgbMode {
    Default,
    RgbRatio,
    SarUrban,
    Enhanced,
}

// "which band is co-pol".
#[derive(Clone, Copy, Debug, PartialEq, Eq)]
pub enum CoPol {
    Band1,
    Band2,
}

// What a picture is told beside its bands.
#[derive(Clone, Copy, Debug, PartialEq, Eq)]
pub struct PictureChoices {
    pub strategy: AutoscaleStrategy,
    pub mode: SyntheticRgbMode,
    pub copol: CoPol,
}

// "The statistics are one record of a count and fifteen floats", with the Rust's field names; "carries the bins of p05 and p95"; "gains the row and column of the first valid maximum".
#[derive(Clone, Copy, Debug, PartialEq)]
pub struct HistogramStats {
    pub valid_count: usize,
    pub min_db: f64,
    pub max_db: f64,
    pub mean_db: f64,
    pub std_db: f64,
    pub median_db: f64,
    pub p01: f64,
    pub p02: f64,
    pub p05: f64,
    pub p10: f64,
    pub p25: f64,
    pub p75: f64,
    pub p90: f64,
    pub p95: f64,
    pub p98: f64,
    pub p99: f64,
    pub p05_bin: usize,
    pub p95_bin: usize,
    pub max_row: usize,
    pub max_col: usize,
}

// A window's floats, as painting takes them. Of a blank band there are none.
#[derive(Clone, Copy, Debug, PartialEq)]
pub struct WindowFloats {
    pub low: f64,
    pub high: f64,
    pub range: f64,
    pub gamma: f64,
}

// The windows of a picture's two bands.
#[derive(Clone, Copy, Debug, PartialEq)]
pub struct PictureWindows {
    pub first: Option<WindowFloats>,
    pub second: Option<WindowFloats>,
}

// The sides of a raster.
#[derive(Clone, Copy, Debug, PartialEq, Eq)]
pub struct Sides {
    pub rows: usize,
    pub cols: usize,
}

// The lengths lent to a picture: two grey outputs, colours, work.
#[derive(Clone, Copy, Debug, PartialEq, Eq)]
pub struct Lent {
    pub grey1: usize,
    pub grey2: usize,
    pub rgb: usize,
    pub work: usize,
}

// A place in a raster.
#[derive(Clone, Copy, Debug, PartialEq, Eq)]
pub struct Place {
    pub row: usize,
    pub col: usize,
}

// What pass one knows of the values so far.
#[derive(Clone, Copy, Debug, PartialEq)]
pub struct Moments {
    pub count: u32,
    pub min_db: f64,
    pub max_db: f64,
    pub mean: f64,
    pub m2: f64,
}

// A bin, its count and the target's rank within it.
#[derive(Clone, Copy, Debug, PartialEq)]
pub struct BinRank {
    pub bin: usize,
    pub size: u32,
    pub rank: u64,
}

// A value, "its bin and its rank within the bin".
#[derive(Clone, Copy, Debug, PartialEq)]
pub struct Percentile {
    pub value: f64,
    pub bin: usize,
    pub rank: u64,
}

// What a strategy decides: the Rust's (low_clip, high_clip, gamma).
#[derive(Clone, Copy, Debug, PartialEq)]
pub struct Clip {
    pub low: f64,
    pub high: f64,
    pub gamma: f64,
}

// Where a row or a column lies among the tiles: its place, two tiles, and the second one's weight.
#[derive(Clone, Copy, Debug, PartialEq)]
pub struct TilePosition {
    pub position: f64,
    pub first: usize,
    pub second: usize,
    pub weight: f64,
}

// The colour bytes of one pixel.
#[derive(Clone, Copy, Debug, PartialEq, Eq)]
pub struct Rgb {
    pub r: u8,
    pub g: u8,
    pub b: u8,
}
