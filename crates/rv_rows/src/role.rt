ghost use Rattle.std.specs.Prelude.{◌≡◌, codes};
ghost use Rattle.rv_rows.specs.Roles.{role_text, role_named};

/// What a share lets its user do with the todos of its list. Whatever the role, the user sees the list.
#[derive(Clone, Copy, Debug, PartialEq, Eq)]
pub enum Role {
    /// Nothing but see them.
    View,
    /// Add, change and remove them.
    Edit,
}

impl Role {
    /// The role's text: `view` or `edit`.
    pub fn text(self) -> &'static str
        ensures { result.now ≡ role_text self }
    {
        match self {
            Role::View => "view",
            Role::Edit => "edit",
        }
    }

    /// The role with this text; no other text is one.
    pub fn named(text: &str) -> Option<Role>
        ensures { result ≡ role_named text.now }
    {
        if text == "view" {
            Some(Role::View)
        } else if text == "edit" {
            Some(Role::Edit)
        } else {
            None
        }
    }
}
