//! What waits under numbers.
ghost use Rattle.std.specs.Prelude.{◌≡◌, ◌<◌, ◌≤◌, ◌==◌, position, vec_len, vec_capacity};
ghost use Rattle.std.specs.Option.{option_copied};
ghost use Rattle.txn_client_seat.specs.Numbered.{waits_at, without};

/// What waits under this number, where something does.
pub fn find<A>(waiting: &[(u64, A)], number: u64) -> Option<&A>
    ensures { option_copied result ≡ waits_at number waiting.now }
{
    for one in waiting {
        if one.0 == number {
            return Some(&one.1);
        }
    }
    None
}

/// Drops what waits under this number.
pub fn drop_at<A: Drop>(waiting: &mut Vec<(u64, A)>, number: u64)
    ensures items { waiting.new.items ≡ without number waiting.old.items }
    ensures len { vec_len waiting.new ≤ vec_len waiting.old }
    ensures capacity { vec_capacity waiting.new ≡ vec_capacity waiting.old }
{
    waiting.retain(|one| one.0 != number);
}

/// Where the first stands that waits under this number, where one does.
fn place_of<A>(waiting: &[(u64, A)], number: u64) -> Option<usize>
    ensures { result ≡ position (λ one. one.0 == number) waiting.now }
{
    waiting.iter().position(|one| one.0 == number)
}

/// Takes out what waits under this number, where something does: the first, where there are more.
pub fn take_out<A: Drop>(waiting: &mut Vec<(u64, A)>, number: u64) -> Option<A>
    ensures found { result ≡ waits_at number waiting.old.items }
    ensures left { waiting.new.items ≡ without number waiting.old.items }
    ensures len { vec_len waiting.new ≤ vec_len waiting.old }
    ensures capacity { vec_capacity waiting.new ≡ vec_capacity waiting.old }
{
    let Some(place) = place_of(waiting.as_slice(), number) else {
        return None;
    };
    let (_, found) = waiting.remove(place);
    drop_at(waiting, number);
    Some(found)
}
