// Parts of a buffer: pasted over, cut out, and a file's part of the store buffer.
ghost use Rattle.std.specs.Prelude.{◌≡◌, ◌+◌, ◌*◌, ◌<◌, ◌≤◌, length};
ghost use Rattle.limits.specs.Limits.{file_count, file_bytes, buffer_bytes};
ghost use Rattle.buffers.specs.Parts.{pasted, cut, chosen, file_part};

use limits::FILE_BYTES;

// Copies all of src over the octets of dst from `at` on. By number: with `copy_from_slice` the library for C would
// need memmove from outside.
pub fn copy_to(dst: &mut [u8], at: usize, src: &[u8])
    requires { at + length src.now ≤ length dst.old }
    ensures { dst.new ≡ pasted dst.old at src.now }
{
    for i in 0..src.len() {
        dst[at + i] = src[i];
    }
}

// The n octets of the buffer from `at` on.
#[tactic(auto, unfolding(crate::specs::Parts::cut))]
pub fn part<'a>(buffer: &'a [u8], at: usize, n: usize) -> &'a [u8]
    requires { at + n ≤ length buffer.now }
    ensures { result.now ≡ cut buffer.now at n }
{
    &buffer[at..at + n]
}

// A run of n octets from `at` on, of the log or of the file, whichever supplies it: two lent slices, as the scope
// wants it.
#[tactic(auto, unfolding(crate::specs::Parts::chosen))]
pub fn run<'a>(log: &'a [u8], file: &'a [u8], logged: bool, at: usize, n: usize) -> &'a [u8]
    requires { at + n ≤ length (chosen logged log.now file.now) }
    ensures { result.now ≡ cut (chosen logged log.now file.now) at n }
{
    part(if logged { log } else { file }, at, n)
}

// File f of the store buffer, for reading.
#[tactic(auto, using(crate::proofs::PartLaws::cut_range), unfolding(crate::specs::Parts::file_part))]
pub fn file_part<'a>(files: &'a [u8], f: usize) -> &'a [u8]
    requires { (length files.now ≡ buffer_bytes) × (f < file_count) }
    ensures { result.now ≡ file_part files.now f }
{
    let start = FILE_BYTES * f;
    let end = start + FILE_BYTES;
    &files[start..end]
}

// Lands src in file f of the store buffer, from place `at` of the file on.
#[tactic(auto, using(crate::proofs::PartLaws::pasted_lent))]
pub fn land(files: &mut [u8], f: usize, at: usize, src: &[u8])
    requires { (length files.old ≡ buffer_bytes)
        × ((f < file_count) × (at + length src.now ≤ file_bytes)) }
    ensures { files.new
        ≡ pasted files.old (file_bytes * f + at) src.now }
{
    let base = FILE_BYTES * f;
    let end = base + FILE_BYTES;
    copy_to(&mut files[base..end], at, src);
}
