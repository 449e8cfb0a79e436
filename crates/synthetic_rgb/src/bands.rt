// Two bands of one length.
ghost use Rattle.std.specs.Prelude.{◌≡◌, ◌≤◌, length};

// The bytes of both bands, a pixel each.
#[derive(Clone, Copy)]
pub(crate) struct Bands<'a> {
    pub(crate) first: &'a [u8],
    pub(crate) second: &'a [u8],
    ghost alike: { length second.now ≡ length first.now },
    ghost short: { length first.now ≤ 16777216 },
}
