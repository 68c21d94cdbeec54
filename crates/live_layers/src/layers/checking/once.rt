//! Whether each page that was given out is in a list, and none twice.

ghost use Rattle.std.specs.Prelude.{◌≡◌, ◌≤◌, ℕ, IfErr, IsOk, OnOk};
ghost use Rattle.page_file.specs.declared.fault.Fault.TheVariants.{Damaged};
ghost use Rattle.live_layers.specs.Checked.{IsOdd, NamesEach};

use page_file::Fault;

/// Sees that the list has each page given out once and no other, where `next` is one more than the greatest
/// number given out: else `Damaged` with a page that is twice in it, or not, or was not given out. The list
/// is left in the order of numbers.
pub fn each_once(list: &mut [u32], next: u32) -> Result<(), Fault>
    requires { 2 ≤ next }
    ensures once { OnOk result (NamesEach next list.old) }
    ensures passes { NamesEach next list.old → IsOk result }
    ensures damage { IfErr result (λ f. (n : ℕ) × (f ≡ Damaged n) × IsOdd next list.old n) }
{
    list.sort_unstable();
    for place in 0..list.len() {
        let page = list[place];
        if page as usize != place + 2 {
            return Err(Fault::Damaged((page as usize).min(place + 2) as u32));
        }
    }
    if list.len() + 2 != next as usize {
        return Err(Fault::Damaged((list.len() + 2).min(next as usize) as u32));
    }
    Ok(())
}
