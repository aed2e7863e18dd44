// Lists of names, and of values that have names.

/// Whether a name stands in a list.
pub fn has_name(names: &[String], name: &str) -> bool {
    for other in names {
        if other.as_str() == name {
            return true;
        }
    }
    false
}

// What first stands under a word in a table.
pub(crate) fn named<T: Copy>(table: &[(&str, T)], word: &str) -> Option<T> {
    for entry in table {
        if entry.0 == word {
            return Some(entry.1);
        }
    }
    None
}

// Where a name first stands in a list.
pub(crate) fn place_of<T>(list: &[(String, T)], name: &str) -> Option<usize> {
    for (at, entry) in list.iter().enumerate() {
        if entry.0.as_str() == name {
            return Some(at);
        }
    }
    None
}

// The first value of a name.
pub(crate) fn value_under<'a, T>(list: &'a [(String, T)], name: &str) -> Option<&'a T> {
    Some(&list.get(place_of(list, name)?)?.1)
}

// The same value, to be changed.
pub(crate) fn value_mut<'a, T>(list: &'a mut [(String, T)], name: &str) -> Option<&'a mut T> {
    let at = place_of(list, name)?;
    Some(&mut list.get_mut(at)?.1)
}
