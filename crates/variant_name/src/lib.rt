//! The name of an enum's variant, as it is written. It stands on nothing; what a call gives is proved where the call stands.
#![tactic(auto)]

/// The name of a value's variant as a `&'static str`. All variants of the enum are listed: one with fields as a pattern, and one
/// that goes by another name with `=>` and that name.
#[macro_export]
macro_rules! name_of {
    (@ $variant:ident) => {
        stringify!($variant)
    };
    (@ $variant:ident $name:expr) => {
        $name
    };
    ($value:tt: $kind:ident { $($variant:ident $(($($field:tt)*))? $(=> $name:expr)?),* $(,)? }) => {
        match $value {
            $($kind::$variant $(($($field)*))? => $crate::name_of!(@ $variant $($name)?),)*
        }
    };
}

#[cfg(test)]
mod tests;
