// What a kernel makes of one element. A loop over lanes is proved once, over any rule.

/// A rule that changes an element.
pub trait Change<T>: Copy {
    /// What it asks of the element.
    ghost takes: { Self → T → Type 0 };

    /// What it makes of the element.
    ghost makes: { Self → T → T → Type 0 };

    /// The new element.
    fn changed(self, x: T) -> T
        requires { takes self x }
        ensures { makes self x result };
}

/// A rule that changes an element by one of another row.
pub trait Merge<A, B>: Copy {
    /// What it asks of the element, and of the other one.
    ghost takes: { Self → B → A → Type 0 };

    /// What it makes of them.
    ghost makes: { Self → B → A → B → Type 0 };

    /// The new element.
    fn merged(self, old: B, from: A) -> B
        requires { takes self old from }
        ensures { makes self old from result };
}

/// A rule that makes an element of three of another row.
pub trait Combine<A, B>: Copy {
    /// What it asks of the three elements.
    ghost takes: { Self → A → A → A → Type 0 };

    /// What it makes of them.
    ghost makes: { Self → A → A → A → B → Type 0 };

    /// The new element.
    fn combined(self, x: A, y: A, z: A) -> B
        requires { takes self x y z }
        ensures { makes self x y z result };
}
