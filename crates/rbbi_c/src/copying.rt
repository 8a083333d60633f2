//! Lists that are written where C wants them.
ghost use Rattle.std.specs.Prelude.{◌≡◌, slice_set};
ghost use Rattle.rbbi_c.specs.Copying.{IsCopied};

/// Writes as much of a list as there is room for.
pub(crate) fn copy_front<T: Copy>(list: &[T], room: &mut [T])
    ensures { IsCopied list.now room.old room.new }
{
    let count = list.len().min(room.len());
    room[..count].copy_from_slice(&list[..count]);
}

/// Writes a number at a place of a list, if there is room for it.
pub(crate) fn write_at(room: &mut [u32], i: usize, number: u32)
    ensures { room.new ≡ slice_set room.old i number }
{
    if i < room.len() {
        room[i] = number;
    }
}
