// Grey of one band. `work` is Clahe's: the other strategies leave it alone.
// Kept: a function for each depth, since C has no generic ones.
ghost use Rattle.std.specs.Prelude.{◌≡◌};
ghost use Rattle.spec.specs.Answer.{number, after};
ghost use Rattle.pipeline.specs.Work.{Kept};
ghost use Rattle.types.specs.Codes.{strategy_of};
ghost use Rattle.quicklook.specs.Codes.{uses_named};
ghost use Rattle.quicklook.specs.Calls as Calls;

use super::replies;
use types::AutoscaleStrategy;

// At 8 bits.
#[unsafe(no_mangle)]
pub extern "C" fn quicklook_grey_u8(
    strategy: u8,
    rows: usize,
    cols: usize,
    db: &[f64],
    valid_mask: &[u8],
    out: &mut [u8],
    work: &mut [f64],
) -> u8
    ensures reply { result ≡ number (Calls.grey_u8 strategy rows cols valid_mask.now db.now out.old work.old) }
    ensures greys { out.new ≡ after (λ l. l) (Calls.grey_u8 strategy rows cols valid_mask.now db.now out.old work.old) out.old }
    ensures work { Kept (uses_named (strategy_of strategy) (Calls.grey_u8 strategy rows cols valid_mask.now db.now out.old work.old)) work.old work.new }
{
    let Ok(strategy) = AutoscaleStrategy::try_from(strategy) else {
        return 255;
    };
    let reply = pipeline::autoscale_db_image_to_u8(rows, cols, strategy, db, valid_mask, out, work);
    replies::reply_number(reply)
}

// At 16 bits.
#[unsafe(no_mangle)]
pub extern "C" fn quicklook_grey_u16(
    strategy: u8,
    rows: usize,
    cols: usize,
    db: &[f64],
    valid_mask: &[u8],
    out: &mut [u16],
    work: &mut [f64],
) -> u8
    ensures reply { result ≡ number (Calls.grey_u16 strategy rows cols valid_mask.now db.now out.old work.old) }
    ensures greys { out.new ≡ after (λ l. l) (Calls.grey_u16 strategy rows cols valid_mask.now db.now out.old work.old) out.old }
    ensures work { Kept (uses_named (strategy_of strategy) (Calls.grey_u16 strategy rows cols valid_mask.now db.now out.old work.old)) work.old work.new }
{
    let Ok(strategy) = AutoscaleStrategy::try_from(strategy) else {
        return 255;
    };
    let reply = pipeline::autoscale_db_image_to_u16(
        rows, cols, strategy, db, valid_mask, out, work,
    );
    replies::reply_number(reply)
}
