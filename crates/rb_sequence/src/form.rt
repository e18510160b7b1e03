//! The canonical form that an entry keeps beside a body of another form.

ghost use Rattle.std.specs.Prelude.{◌≡◌, IfOk};
ghost use Rattle.cs_write.specs.Own.{IsFormBeside};
ghost use Rattle.cs_write.specs.Text.{text_of};

use cs_model::Changeset;
use cs_write::other_form;
use std::alloc::{AllocError, Global};
use std::marker::Model;

/// The canonical form of a changeset that isn't in that form itself, or nothing. Few have one, so
/// it stands apart. Contracts see the form.
#[derive(Debug, Drop)]
pub struct FormBeside {
    other: Option<Box<Changeset>>,
}

impl Model for FormBeside {
    ghost use Rattle.std.specs.Prelude.{List, Option};
    ghost use Rattle.std.specs.Option.{option_map};
    ghost use Rattle.std.specs.Coded.{coded_list, coded_option};
    ghost use Rattle.cs_model.specs.Section.{Section, section_code};

    ghost Value = { Option (List Section) };

    ghost coded = { coded_option (coded_list section_code) };

    ghost view = { λ f. option_map (λ form. form.value) f.other };
}

impl FormBeside {
    /// The form that stands beside this changeset. Returns `AllocError` if memory runs out.
    pub fn of(alloc: Global, changeset: &Changeset) -> Result<FormBeside, AllocError>
        ensures { IfOk result (λ form. IsFormBeside changeset.now form) }
    {
        let other = match other_form(alloc, changeset)? {
            Some(form) => Some(Box::new(alloc, form)?),
            None => None,
        };
        Ok(FormBeside { other })
    }

    /// The canonical text of the changeset that it stands beside.
    pub fn text<'a>(&'a self, changeset: &'a Changeset) -> &'a [u8]
        requires { IsFormBeside changeset.now self.now }
        ensures { result.now ≡ text_of changeset.now }
    {
        match &self.other {
            Some(form) => form.text(),
            None => changeset.text(),
        }
    }
}
