//! Reads the world behind a handle.

/// The value of `$tell`, which reads the world behind a handle as `$world`. The handle stays as it
/// is. If it isn't open, the function returns `BUSY` or `SHUT`.
macro_rules! told {
    ($alloc:ident, $broker:ident, |$world:ident| $tell:expr) => {{
        if !$broker.is_open() {
            if $broker.is_busy() {
                return $crate::codes::BUSY.into();
            }
            return $crate::codes::SHUT.into();
        }
        let why = $broker.why();
        let $world = $broker.take($alloc);
        let told = $tell;
        $broker.put($world, why);
        told
    }};
}

pub(crate) use told;
