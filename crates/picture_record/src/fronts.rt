// As much of a program's list as a record asks for: its first n entries, and all of them where there are fewer.
ghost use Rattle.std.specs.Prelude.{◌≡◌, take};

pub fn front<T>(list: &mut [T], n: usize) -> &mut [T]
    ensures { result.now ≡ take n list.old }
{
    let n = n.min(list.len());
    &mut list[..n]
}
