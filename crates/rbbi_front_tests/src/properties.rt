//! Property files that are refused, and names and values that are alike.
use rbbi_props::{PropErr, PropTable, are_alike, push_common_form};

/// After a refusal the table is as before.
#[test]
fn refusals(rt: HostRuntime) {
    let mut table = PropTable::new(rt.alloc());
    table.add("P", b"0041;V").expect(&rt, "a file");
    assert!(rt; matches!(table.add("P", b"0042;V\n0043 V"), Err(PropErr::BadRow(2))));
    assert!(rt; matches!(table.add("P", b"0042;V\n\xFF"), Err(PropErr::NotUtf8(7))));
    let found = table
        .lookup(rt.alloc(), "p", Some("v"))
        .expect(&rt, "a set");
    assert!(rt; matches!(&found, Some(set) if set.has(0x41) && !set.has(0x42)));
    assert!(rt; PropErr::Memory.label() == "Memory" && PropErr::Memory.place().is_none());
}

const SPELLINGS: [(&str, Option<&str>, &str, Option<&str>, bool); 14] = [
    (
        "General_Category",
        Some("Lu"),
        "GENERAL cat-egory",
        Some("l_U"),
        true,
    ),
    ("gc", Some("L"), "g c", Some("M"), false),
    ("gc", Some("L"), "gcb", Some("L"), false),
    ("gc", Some("L"), "gc", None, false),
    ("L", None, "--l ", None, true),
    ("L", None, "L", Some("L"), false),
    ("L.1", None, "L1", None, false),
    // The names of the database are found without "is", where nothing stands between.
    ("isL", None, "IS_l", None, true),
    ("isL", None, "L", None, false),
    ("isL", None, "i sL", None, false),
    // What isn't well formed is never found.
    ("a,b", None, "", None, true),
    ("a,b", None, "ab", None, false),
    ("gc", Some("a,b"), "GC", Some("\u{e9}"), true),
    ("gc", Some("a,b"), "gc", Some("ab"), false),
];

#[test]
fn spellings(rt: HostRuntime) {
    for row in &SPELLINGS {
        let (name, value, other, other_value, want) = *row;
        assert!(rt;
            are_alike(name, value, other, other_value) == want,
            "{name} {other}"
        );
        assert!(rt;
            are_alike(other, other_value, name, value) == want,
            "{other} {name}"
        );
    }
}

const COMMON_FORMS: [(&str, &str); 5] = [
    ("General_Category", "+=generalcategory"),
    (" L-u.1", "+=lu.1"),
    ("Is_Latin", "+!islatin"),
    ("a,b", "+?"),
    ("", "+?"),
];

#[test]
fn common_forms(rt: HostRuntime) {
    for row in &COMMON_FORMS {
        let mut key = String::from_str(rt.alloc(), "+").expect(&rt, "a string");
        push_common_form(&mut key, row.0).expect(&rt, row.0);
        assert!(rt; key.as_str() == row.1, "{}", row.0);
    }
}
