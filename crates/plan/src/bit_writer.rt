// What writes bits into lent bytes. It stands apart from its methods, since their specs name it.

// A place in the lent bytes, counted in bits from 0. A byte is cleared when its first bit is written.
#[derive(Drop)]
pub(crate) struct BitWriter<'a> {
    pub(crate) bytes: &'a mut [u8],
    pub(crate) at: usize,
}
