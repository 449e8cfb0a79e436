#![tactic(auto)]
// Runs the samples of document 01, and one input for each number of its table of replies: a line for each, its words and what was found.
use numeric::Binary;
use std::fmt::{self, Display};
use std::io;
use types::{AutoscaleStrategy, Refusal, SyntheticRgbMode, WindowAnswer};

// ---- printing

// Elements with commas between them.
#[derive(Clone, Copy)]
struct Listed<'a, T>(&'a [T]);

impl<T: Display> Display for Listed<'_, T> {
    fn fmt<W: fmt::Write>(&self, f: &mut fmt::Formatter<W>) -> fmt::Result {
        for (i, x) in self.0.iter().enumerate() {
            if i > 0 {
                f.write_str(", ")?;
            }
            write!(f, "{x}")?;
        }
        Ok(())
    }
}

// What a call left, or its refusal.
fn reply(
    rt: &impl Print,
    line: impl Display + Drop,
    reply: Result<(), Refusal>,
    left: impl Display + Drop,
) -> io::Result<()> {
    match reply {
        Ok(()) => println!(rt; "{line}: {left}"),
        Err(refusal) => println!(rt; "{line}: {refusal}"),
    }
}

// ---- statistics

fn statistics(rt: &impl Print) -> io::Result<()> {
    match histogram::compute_histogram_stats(1, 2, &[0.0, 10.0], &[1, 1]) {
        Ok(s) => {
            println!(rt; "dB 0, 10: p05 = {}, p95 = {}", s.p05, s.p95)?;
        }
        Err(refusal) => println!(rt; "dB 0, 10: {refusal}")?,
    }
    match histogram::compute_histogram_stats(1, 1, &[-12.5], &[1]) {
        Ok(s) => {
            let all = [
                s.median_db,
                s.p01,
                s.p02,
                s.p05,
                s.p10,
                s.p25,
                s.p75,
                s.p90,
                s.p95,
                s.p98,
                s.p99,
            ];
            println!(rt; "One pixel -12.5, all percentiles: {}", Listed(&all))
        }
        Err(refusal) => println!(rt; "One pixel -12.5, all percentiles: {refusal}"),
    }
}

// ---- grey

// A row of valid pixels in grey, by the call of one format with room for its work, over what was in the list before.
fn grey<T, F, const N: usize>(
    rt: &impl Print,
    line: &str,
    call: F,
    strategy: AutoscaleStrategy,
    work: &mut [f64],
    db: [f64; N],
    mut out: [T; N],
) -> io::Result<()>
where
    T: Display + Copy,
    F: FnOnce(
        usize,
        usize,
        AutoscaleStrategy,
        &[f64],
        &[u8],
        &mut [T],
        &mut [f64],
    ) -> Result<(), Refusal>,
    requires { F.IsAlwaysCallable call }
{
    let answer = call(1, N, strategy, &db, &[1; N], &mut out, work);
    reply(rt, line, answer, Listed(&out))
}

fn greys(rt: &impl Print) -> io::Result<()> {
    // The values 0 and high at 8 bits.
    let u8_grey = |line: &str, strategy: AutoscaleStrategy, high: f64| {
        let call = pipeline::autoscale_db_image_to_u8;
        grey(rt, line, call, strategy, &mut [0.0], [0.0, high], [0xa5; 2])
    };
    u8_grey(
        "dB 0, 10, Default, U8 grey",
        AutoscaleStrategy::Default,
        10.0,
    )?;
    grey(
        rt,
        "0, 0.5, Default, U16 grey",
        pipeline::autoscale_db_image_to_u16,
        AutoscaleStrategy::Default,
        &mut [0.0],
        [0.0, 0.5],
        [0xa5a5; 2],
    )?;
    u8_grey("0, 0.5, Default, U8 grey", AutoscaleStrategy::Default, 0.5)?;
    grey(
        rt,
        "One pixel -12.5, Default, U8 grey",
        pipeline::autoscale_db_image_to_u8,
        AutoscaleStrategy::Default,
        &mut [0.0],
        [-12.5],
        [0xa5; 1],
    )?;

    // Done or refused at 16 bits, whatever the greys.
    for high in [14.0, 15.0, 40.0, 41.0] {
        let answer = pipeline::autoscale_db_image_to_u16(
            1,
            2,
            AutoscaleStrategy::Standard,
            &[0.0, high],
            &[1, 1],
            &mut [0xa5a5; 2],
            &mut [0.0],
        );
        reply(rt, format_args!("Standard, 0, {high}, U16"), answer, "done")?;
    }
    u8_grey(
        "Standard, 0, 14, U8 grey",
        AutoscaleStrategy::Standard,
        14.0,
    )?;
    u8_grey(
        "Standard, 0, 41, U8 grey",
        AutoscaleStrategy::Standard,
        41.0,
    )?;
    grey(
        rt,
        "Clahe on one row",
        pipeline::autoscale_db_image_to_u8,
        AutoscaleStrategy::Clahe,
        &mut [0.0; 16384],
        [0.0, 1.0],
        [0xa5; 2],
    )
}

// ---- windows

// The window of a row of pixels, of which the call is told how many there are.
fn window(
    rt: &impl Print,
    line: impl Display + Drop,
    strategy: AutoscaleStrategy,
    cols: usize,
    db: &[f64],
    valid_mask: &[u8],
) -> io::Result<()> {
    match autoscale::autoscale_window(strategy, 1, cols, db, valid_mask) {
        WindowAnswer::Window { gamma, .. } => println!(rt; "{line}: gamma {gamma:?}"),
        WindowAnswer::Blank => println!(rt; "{line}: blank"),
        WindowAnswer::Refused(k) => println!(rt; "{line}: refused {k}"),
    }
}

fn windows(rt: &impl Print) -> io::Result<()> {
    let strategy = AutoscaleStrategy::Standard;
    for high in [14.0, 15.0, 40.0, 41.0] {
        let line = format_args!("Window of Standard, 0, {high}");
        window(rt, line, strategy, 2, &[0.0, high], &[1, 1])?;
    }
    window(
        rt,
        "Window without a valid pixel",
        strategy,
        2,
        &[0.0, 2000.0],
        &[0, 0],
    )
}

// ---- colours

// The colours of two bands, over what was in the list before.
fn colour(
    rt: &impl Print,
    line: impl Display + Drop,
    strategy: AutoscaleStrategy,
    band1: &[u8],
    band2: &[u8],
    out: &mut [u8],
) -> io::Result<()> {
    let answer = synthetic_rgb::create_synthetic_rgb_by_mode_and_strategy(
        SyntheticRgbMode::Default,
        strategy,
        band1,
        band2,
        out,
    );
    reply(rt, line, answer, Listed(out))
}

fn colours(rt: &impl Print) -> io::Result<()> {
    for (name, strategy, v1, v2) in [
        ("Default", AutoscaleStrategy::Default, 255u8, 255u8),
        ("Default", AutoscaleStrategy::Default, 255, 1),
        ("Default", AutoscaleStrategy::Default, 1, 1),
        ("Default", AutoscaleStrategy::Default, 0, 255),
        ("Suppressed, one pixel", AutoscaleStrategy::Tamed, 255, 255),
        ("Suppressed, one pixel", AutoscaleStrategy::Tamed, 255, 3),
        ("Suppressed, one pixel", AutoscaleStrategy::Clahe, 3, 255),
        ("Suppressed, one pixel", AutoscaleStrategy::Clahe, 4, 4),
    ] {
        let line = format_args!("{name} ({v1},{v2})");
        colour(rt, line, strategy, &[v1], &[v2], &mut [0xa5; 3])?;
    }
    colour(
        rt,
        "Four pixels of 200 in both bands, colours above f = 3",
        AutoscaleStrategy::Tamed,
        &[200; 4],
        &[200; 4],
        &mut [0xa5; 12],
    )?;
    colour(
        rt,
        "Five pixels of 200 in both bands, colours above f = 40",
        AutoscaleStrategy::Tamed,
        &[200; 5],
        &[200; 5],
        &mut [0xa5; 15],
    )
}

// ---- the stretch by itself, padding and marks

fn beside(rt: &impl Print) -> io::Result<()> {
    for row in [[0, 1, 2], [7, 7, 7]] {
        let mut out = [0xa5; 3];
        let answer = stretch::scale_u16_to_u8(&row, &mut out);
        reply(
            rt,
            format_args!("Stretch {}", Listed(&row)),
            answer,
            Listed(&out),
        )?;
    }
    let mut out = [0xa5; 4];
    let answer = padding::add_padding_to_square(0, 1, 2, &[1, 2], &mut out);
    reply(rt, "Pad 1 row 1, 2", answer, Listed(&out))?;
    for bits in [0x3727c5ac, 0x3727c5ad] {
        let mut out = [0xa5; 1];
        let answer = marks::process_scalar_data_mask(&[f32::of_bits(bits)], &mut out);
        reply(rt, format_args!("Mark of {bits:X}"), answer, Listed(&out))?;
    }
    Ok(())
}

// ---- the table of replies

fn replies(rt: &impl Print) -> io::Result<()> {
    for (line, cols, mark, v) in [
        ("Columns 4,097 and a mark 2", 4097, 2, 0.0),
        ("Two pixels for three", 3, 2, 0.0),
        ("A mark 2 beside 1001 dB", 2, 2, 1001.0),
        ("1001 dB", 2, 1, 1001.0),
        ("1000 dB", 2, 1, 1000.0),
        ("1001 dB under a mark 0", 2, 0, 1001.0),
    ] {
        window(
            rt,
            line,
            AutoscaleStrategy::Default,
            cols,
            &[0.0, v],
            &[1, mark],
        )?;
    }
    Ok(())
}

fn main(rt: HostRuntime) -> io::Result<()> {
    statistics(&rt)?;
    greys(&rt)?;
    windows(&rt)?;
    colours(&rt)?;
    beside(&rt)?;
    replies(&rt)
}
