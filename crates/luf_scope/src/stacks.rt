// Stacks of what holds a place, each up to its end.
ghost use Rattle.std.specs.Prelude.{◌≡◌, ℕ, ◌≤◌, ◌++◌, ◌∷◌, [], map};
ghost use Rattle.std.specs.Option.{option_map};
ghost use Rattle.luf_scope.specs.inner.Last.{last_such, outlasts};

// What holds each place before `to`.
#[derive(Clone, Copy, Debug, PartialEq, Eq)]
pub struct Held<T> {
    pub what: T,
    pub to: u32,
}

// The last that holds a place. Those above it, which end before, are taken off.
pub fn top<T: Copy>(stack: &mut Vec<Held<T>>, place: u32) -> Option<T>
    ensures found { result ≡ option_map (λ h. h.what) (last_such (outlasts place) stack.old.items) }
    ensures kept { (later : ℕ) → place ≤ later → last_such (outlasts later) stack.new.items ≡ last_such (outlasts later) stack.old.items }
{
    let mut left = stack.len();
    while left > 0 && stack[left - 1].to <= place {
        left -= 1;
    }
    stack.truncate(left);
    if left == 0 {
        None
    } else {
        Some(stack[left - 1].what)
    }
}
