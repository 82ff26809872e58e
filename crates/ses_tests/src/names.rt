use aw_cell::Text;
use ses_step::Names;
use std::alloc::Global;
use std::test::Fail;

// Whether a name that was pushed is found in capital letters, first at this place.
fn is_found(alloc: Global, names: &Names, name: &Text, place: usize) -> Result<bool, Fail> {
    let upper = name.bytes().to_ascii_uppercase(alloc)?;
    match Text::of(upper.as_slice()) {
        Some(word) => Ok(names.find(&word) == Some(place)),
        None => Ok(false),
    }
}

#[test]
fn finds_hundreds_without_regard_to_case(rt: HostRuntime) -> Result<(), Fail> {
    let alloc = rt.alloc();
    let mut names = Names::new(alloc);
    for first in b'a'..=b'p' {
        for second in b'A'..=b'P' {
            names.push(Text::of(&[first, second]).ok_or("a text")?)?;
        }
    }
    let mut all = true;
    for (at, name) in names.as_slice().iter().enumerate() {
        all &= is_found(alloc, &names, name, at)?;
    }
    let first = Text::of(b"AA").ok_or("a text")?;
    names.push(first)?;
    let last = (names.len() == 257) & (names.get(256) == Some(&first));
    assert!(rt; all & last & (names.find(&first) == Some(0)));
    Ok(())
}
