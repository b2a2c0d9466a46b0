//! Giving up sinks.
ghost use Rattle.std.specs.Prelude.{◌≡◌, ◌≤◌, true};
ghost use Rattle.outer.specs.Count.{Rose};
ghost use Rattle.outer.specs.Folder.{KeepsAll};
ghost use Rattle.drafts.specs.Drafts.{has_faulty};

use outer::Folder;

/// Gives up these sinks: nothing of what they took is kept. A fault of one of them is one in saving.
pub fn discard_all<F: Folder>(folder: &mut F, mut sinks: Vec<F::Out>)
    ensures kept { KeepsAll (F.files folder.old) (F.files folder.new) }
    ensures loads { F.loads folder.new ≡ F.loads folder.old }
    ensures count { F.saves folder.old ≤ F.saves folder.new }
    ensures rises { has_faulty F.Out.faults sinks.items ≡ true → Rose (F.saves folder.old) (F.saves folder.new) }
{
    while let Some(sink) = sinks.pop() {
        folder.discard(sink);
    }
}
