// What has been written of a spelling.
ghost use Rattle.std.specs.Prelude.{◌≡◌, ◌≤◌, length};

// `word`: a word was written last. The bytes stand in the writer, with their number, since nothing is allocated.
#[derive(Clone, Copy)]
pub struct Writer {
    pub bytes: [u8; 512],
    pub len: usize,
    pub word: bool,
    ghost whole: { length bytes ≡ 512 },
    ghost fits: { len ≤ 512 },
}
