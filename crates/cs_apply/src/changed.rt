//! Whether places have the rows of others with changes of rows made. All are compared where they
//! stand, so it needs no memory, and its time is linear.

ghost use Rattle.std.specs.{Prelude.{◌≡◌, ◌≤◌, length}, Option.{option_copied}, Bool.{Decides}};
ghost use Rattle.std.specs.FinMap as map;
ghost use Rattle.std.specs.{List.{AllByRecursion, IsDistinct}, Map.{keys_of}};
ghost use Rattle.cs_apply.specs.Changed.{AreChanged, AreInBut, is_lacked, lacked_changes};
ghost use Rattle.cs_apply.specs.Changed.{lacked_places};
ghost use Rattle.cs_apply.specs.{SameKey.{same_key}, Steps.{rows_in}};

use crate::places::Places;
use cs_model::{Row, RowKey};

impl Places {
    /// Whether the others have these rows with these changes made: a changed key the row that its
    /// change gives it, or none, and each other key what it has here.
    pub(crate) fn are_changed_to(&self, changes: &[(RowKey, Option<Row>)], others: &Places) -> bool
        requires { IsDistinct same_key (keys_of changes.now) }
        ensures { Decides result
            (AreChanged (rows_in self.now) changes.now (rows_in others.now)) }
    {
        others.have_all(changes) && self.are_same_but(changes, others)
    }

    // whether each changed key has the row that its change gives it, or none
    fn have_all(&self, changes: &[(RowKey, Option<Row>)]) -> bool
        ensures { Decides result (AllByRecursion
            (λ change. map.get (rows_in self.now) change.0 ≡ change.1) changes.now) }
    {
        for (key, row) in changes {
            if !self.gives(key, row) {
                return false;
            }
        }
        true
    }

    // whether this key has this row, or none
    fn gives(&self, key: &RowKey, row: &Option<Row>) -> bool
        ensures { Decides result (map.get (rows_in self.now) key.now ≡ row.now) }
    {
        match row {
            Some(row) => self.has(key, row),
            None => self.find(key).is_none(),
        }
    }

    // whether each key without a change has the same row in both, or none
    fn are_same_but(&self, changes: &[(RowKey, Option<Row>)], others: &Places) -> bool
        requires { IsDistinct same_key (keys_of changes.now) }
        ensures { Decides result (AreInBut (rows_in self.now) changes.now (rows_in others.now)
            × AreInBut (rows_in others.now) changes.now (rows_in self.now)) }
    {
        self.are_in_but(changes, others) && others.are_in_but(changes, self)
    }

    // Whether each of these rows whose key has no change is a row of the others. No two changes are
    // of one key, so it is enough that the others lack no more rows than those of changed keys.
    fn are_in_but(&self, changes: &[(RowKey, Option<Row>)], others: &Places) -> bool
        requires { IsDistinct same_key (keys_of changes.now) }
        ensures { Decides result
            (AreInBut (rows_in self.now) changes.now (rows_in others.now)) }
    {
        // for its clause that no two keys are equal
        let _places = self.rows.len();
        self.are_lacked_at_most(others, self.count_lacked(changes, others))
    }

    // how many changed keys have a row here that the others lack
    fn count_lacked(&self, changes: &[(RowKey, Option<Row>)], others: &Places) -> usize
        ensures { result ≡ length
            (lacked_changes (rows_in self.now) (rows_in others.now) changes.now) }
    {
        let mut count = 0;
        for (key, _) in changes {
            if others.lacks(key, self.row(key)) {
                count += 1;
            }
        }
        count
    }

    // whether the others lack so many of these rows at most
    fn are_lacked_at_most(&self, others: &Places, most: usize) -> bool
        ensures { Decides result
            (length (lacked_places (rows_in others.now) self.now.rows.entries) ≤ most) }
    {
        let mut left = most;
        for (key, place) in self.rows.iter() {
            if others.lacks(key, place.as_ref()) {
                if left == 0 {
                    return false;
                }
                left -= 1;
            }
        }
        true
    }

    // whether this row isn't the one of this key; none is never lacked
    fn lacks(&self, key: &RowKey, row: Option<&Row>) -> bool
        ensures { result
            ≡ is_lacked (option_copied row.entry) (map.get (rows_in self.now) key.now) }
    {
        match row {
            Some(row) => !self.has(key, row),
            None => false,
        }
    }

    // the row of this key
    fn row(&self, key: &RowKey) -> Option<&Row>
        ensures { option_copied result ≡ map.get (rows_in self.now) key.now }
    {
        let (_, row) = self.find(key)?;
        Some(row)
    }
}
