// Copies in blocks of eight and four bytes. A source and an offset go in; the text is written there (`written` of specs/Written.antt).
//
// No byte after the text is stored. The last block overlaps the one before it and stores the same bytes again (proofs/Overlaps.antt).
//
// Most cells are short, and one `copy_from_slice` of the whole text is a call of memcpy: 10 ns for one to three bytes in place of 4, and
// 9 ns for eight in place of 6.
ghost use Rattle.std.specs.Prelude.{◌≡◌, ◌+◌, ◌≤◌, ◌<◌, length};
ghost use Rattle.model.specs.rules.Api.{slice};
ghost use Rattle.buffer.specs.Written.{written};

// N bytes of the source from i on, at o. They pass through an array, so that the compiler makes one load and one store of them: a copy
// from slice to slice first tests whether the two overlap, and has a second copy, byte by byte, for that.
fn copy_block<const N: usize>(out: &mut [u8], o: usize, src: &[u8], i: usize)
    requires { (o + N ≤ length out.old) × (i + N ≤ length src.now) }
    ensures { out.new ≡ written out.old o (slice src.now i (i + N)) }
{
    let mut block = [0u8; N];
    block.copy_from_slice(&src[i..i + N]);
    out[o..o + N].copy_from_slice(&block);
}

// One to three bytes: the first, the middle and the last, some of them equal. They are stored from the last to the first: in the other
// order the compiler merges the last byte's store with those of `copy_short` and `copy_long` into one after all three, and the bytes
// before it are no longer stored at once.
fn copy_few(out: &mut [u8], at: usize, src: &[u8])
    requires { (0 < length src.now) × (length src.now ≤ 3) × (at + length src.now ≤ length out.old) }
    ensures { out.new ≡ written out.old at src.now }
{
    let middle = src.len() / 2;
    let last = src.len() - 1;
    let b0 = src[0];
    let b1 = src[middle];
    let b2 = src[last];
    out[at + last] = b2;
    out[at + middle] = b1;
    out[at] = b0;
}

// Up to seven bytes.
pub fn copy_short(out: &mut [u8], at: usize, src: &[u8])
    requires { (length src.now < 8) × (at + length src.now ≤ length out.old) }
    ensures { out.new ≡ written out.old at src.now }
{
    if 4 <= src.len() {
        let last = src.len() - 4;
        copy_block::<4>(out, at, src, 0);
        copy_block::<4>(out, at + last, src, last);
    } else if src.len() != 0 {
        copy_few(out, at, src);
    }
}

// Eight bytes or more.
pub fn copy_long(out: &mut [u8], at: usize, src: &[u8])
    requires { (8 ≤ length src.now) × (at + length src.now ≤ length out.old) }
    ensures { out.new ≡ written out.old at src.now }
{
    let last = src.len() - 8;
    for i in (0..last).step_by(8) {
        copy_block::<8>(out, at + i, src, i);
    }
    copy_block::<8>(out, at + last, src, last);
}
