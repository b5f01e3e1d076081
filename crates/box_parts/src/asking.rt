// How an export asks what C keeps.

/// Takes what is open out of what C keeps, asks it, and puts it back; or answers what is told of a closed one.
#[macro_export]
macro_rules! ask {
    ($kept:ident, $alloc:ident, $array:ident => $asked:expr, else $closed:expr) => {{
        let Some(mut $array) = $kept.take($alloc) else {
            return $closed;
        };
        let status = $asked;
        $kept.put($array);
        status
    }};
}
