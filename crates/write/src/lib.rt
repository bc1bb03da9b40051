// Writers of a run.
#![tactic(auto)]

ghost use Rattle.std.specs.Prelude.{◌≡◌, length, replicate};
ghost use Rattle.run.specs.Written.{over};

// Every digit of `dst` is `v`.
pub fn fill(dst: &mut [u8], v: u8)
    ensures { dst.new ≡ replicate (length dst.old) v }
{
    dst.fill(v);
}

// The digits of `src` over the front of `dst`, as far as the shorter goes. They are copied one by one: std's `copy_from_slice` would have the C library's memmove called,
// and the archive asks for memcpy and memset alone.
pub fn copy(dst: &mut [u8], src: &[u8])
    ensures { dst.new ≡ over src.now dst.old }
{
    let n = dst.len().min(src.len());
    for i in 0..n {
        dst[i] = src[i];
    }
}
