// `regular_expr`: what is a pattern, and where it is found. The expected answers are those of PCRE2 10.42 with the options that MPD 0.23.12
// gives it; the limits of leaves and parentheses are our own.
use crate::assertions::{equal, same_bytes};
use regular_expr::Pattern;
use std::alloc::{AllocError, Global};
use std::process::Abort;
use std::test::Fail;

/// Whether the pattern is one and is found: nothing where it is none.
fn found(alloc: Global, source: &str, fold: bool, text: &str) -> Result<Option<bool>, AllocError> {
    match Pattern::parse(alloc, source.as_bytes())? {
        None => Ok(None),
        Some(pattern) => Ok(Some(pattern.is_found(fold, text.as_bytes()))),
    }
}

/// How many leaves of the pattern are looked at for a byte: 0 where it is none.
fn visits(alloc: Global, source: &str) -> Result<u32, AllocError> {
    match Pattern::parse(alloc, source.as_bytes())? {
        None => Ok(0),
        Some(pattern) => Ok(pattern.visits()),
    }
}

/// So many times the text.
fn times(alloc: Global, text: &str, count: u32) -> Result<String, AllocError> {
    let mut all = String::new(alloc);
    for _ in 0..count {
        all.push_str(text)?;
    }
    Ok(all)
}

/// A byte within so many parentheses.
fn nested(alloc: Global, count: u32) -> Result<String, AllocError> {
    let mut all = times(alloc, "(", count)?;
    all.push_str("a")?;
    all.push_str(&times(alloc, ")", count)?)?;
    Ok(all)
}

#[test]
fn patterns_are_found(rt: HostRuntime) -> Result<(), Fail> {
    let rows = [
        ("lph", "Alpha", true),
        ("^lph", "Alpha", false),
        ("^A.*a$", "Alpha", true),
        ("(Al|Be)(pha|ta)", "Beta", true),
        ("\\bof\\b", "Out of time", true),
        ("\\bof\\b", "Often", false),
        ("colou?r{2,3}", "colorr", true),
        ("[[:digit:]]{2}", "No. 9", false),
        ("[^]a-c-]", "a]b-c", false),
        ("x*", "", true),
        ("(a|b*)+c", "aabbac", true),
        ("((a*)*b){2,}$", "aaabaab", true),
        ("Stra..e", "Straße", true),
        ("(^)*[:,]", "a, b", true),
    ];
    for (source, text, expected) in rows.iter() {
        equal(
            &rt,
            found(rt.alloc(), source, false, text)?,
            Some(*expected),
        );
    }
    Ok(())
}

#[test]
fn case_may_not_count(rt: HostRuntime) -> Result<(), Fail> {
    equal(
        &rt,
        found(rt.alloc(), "aLPHA", false, "Alpha")?,
        Some(false),
    );
    equal(&rt, found(rt.alloc(), "aLPHA", true, "Alpha")?, Some(true));
    equal(
        &rt,
        found(rt.alloc(), "(?i)aLPHA", false, "Alpha")?,
        Some(true),
    );
    equal(&rt, found(rt.alloc(), "[^A]", true, "a")?, Some(false));
    equal(&rt, found(rt.alloc(), "ÉTÉ", true, "Été")?, Some(false));
    Ok(())
}

#[test]
fn its_text(rt: HostRuntime) -> Result<(), Fail> {
    let pattern = Pattern::parse(rt.alloc(), b"(a|b)+$")?.ok_or("no pattern")?;
    same_bytes(&rt, pattern.source(), b"(a|b)+$");
    Ok(())
}

#[test]
fn others_are_no_patterns(rt: HostRuntime) -> Result<(), Fail> {
    let sources = [
        "(",
        ")",
        "[",
        "*",
        "a**",
        "a++",
        "^*",
        "\\b+",
        "[z-a]",
        "[a-\\d]",
        "[[:foo:]]",
        "[.a.]",
        "\\y",
        "\\1",
        "a{2,1}",
        "a{256}",
        "(?=a)",
    ];
    for source in sources.iter() {
        equal(&rt, found(rt.alloc(), source, false, "a")?, None);
    }
    Ok(())
}

#[test]
fn patterns_have_limits(rt: HostRuntime) -> Result<(), Fail> {
    let most = times(rt.alloc(), "a", 512)?;
    let more = times(rt.alloc(), "a", 513)?;
    equal(&rt, visits(rt.alloc(), &most)?, 512);
    equal(&rt, visits(rt.alloc(), &more)?, 0);
    equal(&rt, found(rt.alloc(), &most, false, &more)?, Some(true));
    equal(&rt, visits(rt.alloc(), "((a{8}){8}){8}")?, 512);
    equal(&rt, visits(rt.alloc(), "((a{8}){8}){9}")?, 0);
    equal(&rt, visits(rt.alloc(), "((a+)+[b-dx])*")?, 8);
    equal(&rt, visits(rt.alloc(), "((a{0}){200}){0}")?, 1);
    equal(&rt, visits(rt.alloc(), &nested(rt.alloc(), 16)?)?, 1);
    equal(&rt, visits(rt.alloc(), &nested(rt.alloc(), 17)?)?, 0);
    Ok(())
}
