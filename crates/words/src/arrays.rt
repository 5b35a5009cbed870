// A list of numbers in an array of a fixed size.
ghost use Rattle.std.specs.Prelude.{◌≡◌, ℕ, ◌≤◌, List, length};
ghost use Rattle.std.specs.Iterator.{IsFinite};
ghost use Rattle.std.proofs.lemmas.Iterator.{YieldsList};
ghost use Rattle.lists.specs.Arrays.{padded};

// The numbers that an iterator gives, in their order, and zeros past them.
pub fn padded<const N: usize, I: Iterator<Item = u32> + Drop>(mut numbers: I) -> [u32; N]
    requires can { I.can_next numbers }
    requires finite { IsFinite (I.remaining numbers) }
    ensures { (all : List ℕ) → YieldsList I.next_gives (λ number. number) numbers all → length all ≤ N → result ≡ padded N all }
{
    let mut array = [0; N];
    for place in array.iter_mut() {
        let Some(number) = numbers.next() else { break };
        *place = number;
    }
    array
}
