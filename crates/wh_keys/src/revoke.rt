ghost use Rattle.std.specs.Prelude.{◌≡◌, map};

/// What a block changes, and what can be as it was before. Neither call takes memory.
pub trait Revoke {
    ghost rolled_back: { Self → Self };

    ghost kept: { Self → Self };

    /// All is as it was before the block.
    fn roll_back(&mut self)
        ensures { self.new ≡ rolled_back self.old };

    /// All stays as it is now, and the block is over.
    fn keep(&mut self)
        ensures { self.new ≡ kept self.old };
}

/// Each item is as it was before the block.
pub fn roll_back_all<T: Revoke>(items: &mut Vec<T>)
    ensures { items.new.items ≡ map T.rolled_back items.old.items }
{
    roll_back_each(items.as_mut_slice());
}

/// Each item stays as it is now.
pub fn keep_all<T: Revoke>(items: &mut Vec<T>)
    ensures { items.new.items ≡ map T.kept items.old.items }
{
    keep_each(items.as_mut_slice());
}

fn roll_back_each<T: Revoke>(items: &mut [T])
    ensures { items.new ≡ map T.rolled_back items.old }
{
    for item in items.iter_mut() {
        item.roll_back();
    }
}

fn keep_each<T: Revoke>(items: &mut [T])
    ensures { items.new ≡ map T.kept items.old }
{
    for item in items.iter_mut() {
        item.keep();
    }
}
