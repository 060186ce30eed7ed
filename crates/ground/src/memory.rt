// Bytes laid into lent memory: as many as it holds, what lies past them stays. What lays several parts lends the rest of the memory to the next,
// `at += put_x(&mut out[at..])`: the form that the build definition names for answers, without a heap.
ghost use Rattle.std.specs.Prelude.{◌<◌, take};
ghost use Rattle.ground.specs.Memory.{Laid};

// The one loop that copies bytes: lays src into the front of dst and says how many went in. (A loop, and not std's `copy_from_slice`: that one
// calls memmove, which a board would have to bring for the library for C.)
pub fn copy_front(src: &[u8], dst: &mut [u8]) -> usize
    ensures { Laid dst.old src.now result dst.new }
{
    let n = src.len().min(dst.len());
    for i in 0..n {
        dst[i] = src[i];
    }
    n
}

// Lays the first `room` bytes of src.
pub fn put_cut(src: &[u8], room: usize, dst: &mut [u8]) -> usize
    ensures { Laid dst.old (take room src.now) result dst.new }
{
    let n = room.min(src.len());
    copy_front(&src[..n], dst)
}
