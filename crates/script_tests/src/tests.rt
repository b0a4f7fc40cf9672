// What is printed for single lines; the expected answers are those of docs/WORKBENCH.md.
use script::command::parse;
use std::alloc::{AllocError, Global};

// What is wrong with a line, or nothing.
fn fault(heap: Global, line: &str) -> Result<String, AllocError> {
    match parse(line.as_bytes()) {
        Ok(_) => Ok(String::new(heap)),
        Err(fault) => fault.to_string(heap),
    }
}

#[test]
fn the_first_wrong_word_decides(rt: HostRuntime) -> Result<(), AllocError> {
    for (line, want) in [
        ("packets read sum 45", "unknown command"),
        ("packet reads sum 45", "unknown command"),
        ("packet read SUM xyz", "KIND is sum or xor"),
        (
            "packet write sum 4 xyz",
            "LETTER is one byte in hexadecimal",
        ),
        (
            "packet write sum 45 xyz x",
            "BYTES are pairs of hexadecimal digits",
        ),
        ("packet write sum 45 - 65537x x", "SIZE is a decimal number"),
        (
            "packet write sum 45 - 18446744073709551616 x",
            "too many words",
        ),
        ("packet write sum 45 - 18446744073709551616", ""),
        ("packet write sum 45", "too few words"),
    ] {
        let told = fault(rt.alloc(), line)?;
        assert_eq!(rt; told.as_str(), want, "at {line}");
    }
    Ok(())
}

#[test]
fn medium_faults_are_told(rt: HostRuntime) -> Result<(), AllocError> {
    for (line, want) in [
        ("medium x take", "NAME is m or n"),
        ("medium m mend", "unknown command"),
        ("medium n count 0", "too many words"),
    ] {
        let told = fault(rt.alloc(), line)?;
        assert_eq!(rt; told.as_str(), want, "at {line}");
    }
    Ok(())
}

#[test]
fn line_faults_are_told(rt: HostRuntime) -> Result<(), AllocError> {
    for (line, want) in [
        ("line", "too few words"),
        ("line leave north", "unknown command"),
        (
            "line state north x",
            "a side is west, east or a number from 0 to 255",
        ),
        (
            "line arrive 256",
            "a side is west, east or a number from 0 to 255",
        ),
        (
            "line open sum - 'OK",
            "BYTES are pairs of hexadecimal digits",
        ),
        ("line open sum - - queue:1", "too few words"),
        ("line read west 96 x", "too many words"),
        ("line submit 255 'OK", ""),
    ] {
        let told = fault(rt.alloc(), line)?;
        assert_eq!(rt; told.as_str(), want, "at {line}");
    }
    Ok(())
}

#[test]
fn end_and_settings_faults_are_told(rt: HostRuntime) -> Result<(), AllocError> {
    for (line, want) in [
        ("settings write 01", "unknown command"),
        ("settings read 0", "BYTES are pairs of hexadecimal digits"),
        ("end c state", "NAME is a or b"),
        ("end a mend", "unknown command"),
        ("end a open 256 sum 01", "LINE is a number from 0 to 255"),
        ("end b give c", "NAME is a or b"),
        ("end b take +96", "SIZE is a decimal number"),
        ("end b take 65537", ""),
        ("end b state 0", "too many words"),
    ] {
        let told = fault(rt.alloc(), line)?;
        assert_eq!(rt; told.as_str(), want, "at {line}");
    }
    Ok(())
}
