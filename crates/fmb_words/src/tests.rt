use crate::{MadeWords, ServeWords, TrialWords, Words, read_words};
use std::alloc::{AllocError, Global};
use std::test::Fail;

fn words_of(alloc: Global, list: &[&str]) -> Result<Vec<String>, AllocError> {
    let mut words = Vec::new(alloc);
    for word in list {
        words.push(String::from_str(alloc, word)?)?;
    }
    Ok(words)
}

fn serve_text(alloc: Global, words: &ServeWords<'_>) -> Result<String, AllocError> {
    let mut text = format!(in alloc;
        "serve [{}] [{}] {} {}",
        words.address, words.archive, words.workers, words.sessions
    )?;
    for imei in words.devices.iter() {
        text.push_str(" ")?;
        text.push_str(format!(in alloc; "{}", imei.number())?.as_str())?;
    }
    Ok(text)
}

/// What is read of a list of words: the command's word and its arguments, or the fault's text.
fn read_of(alloc: Global, list: &[&str]) -> Result<String, AllocError> {
    let words = words_of(alloc, list)?;
    match read_words(alloc, words.as_slice()) {
        Ok(Words::Show { file }) => format!(in alloc; "show [{file}]"),
        Ok(Words::Trial(TrialWords { file, brief })) => {
            format!(in alloc; "trial [{file}] {brief}")
        }
        Ok(
            Words::Made(
                MadeWords {
                    seed,
                    devices,
                    fixes,
                },
            ),
        ) => format!(in alloc; "made {seed} {devices} {fixes}"),
        Ok(Words::Serve(words)) => serve_text(alloc, &words),
        Ok(Words::Drive(words)) => format!(in alloc;
            "drive [{}] [{}] [{}]",
            words.address, words.flash, words.script
        ),
        Err(fault) => format!(in alloc; "{fault}"),
    }
}

#[test]
fn reads_lists_of_words(rt: HostRuntime) -> Result<(), Fail> {
    for (list, read) in [
        (["show", "f"].as_slice(), "show [f]"),
        (["trial", "f"].as_slice(), "trial [f] false"),
        (["trial", "f", "--brief"].as_slice(), "trial [f] true"),
        (["trial", "--brief", "f"].as_slice(), "trial [f] true"),
        (
            ["trial", "f", "--brief", "--brief"].as_slice(),
            "refused words",
        ),
        (["trial", "f", "--brief=no"].as_slice(), "refused words"),
        (["trial", "--brief"].as_slice(), "refused words"),
        (["show", "f", "--brief"].as_slice(), "refused words"),
        (["made", "1", "2", "100"].as_slice(), "made 1 2 100"),
        (
            ["made", "18446744073709551615", "64", "100000"].as_slice(),
            "made 18446744073709551615 64 100000",
        ),
        (
            ["made", "18446744073709551616", "64", "100000"].as_slice(),
            "refused words",
        ),
        (["made", "0", "0", "1"].as_slice(), "refused words"),
        (["made", "0", "65", "1"].as_slice(), "refused words"),
        (["made", "0", "1", "0"].as_slice(), "refused words"),
        (["made", "0", "1", "100001"].as_slice(), "refused words"),
        (["made", "00", "1", "1"].as_slice(), "refused words"),
        (["made", "0", "1"].as_slice(), "refused words"),
        (["made", "0", "1", "1", "1"].as_slice(), "refused words"),
        (["show", "trial"].as_slice(), "show [trial]"),
        ([].as_slice(), "refused words"),
        (["sho"].as_slice(), "refused words"),
        (["sho", "f"].as_slice(), "refused words"),
        (["show"].as_slice(), "refused words"),
        (["show", "a", "b"].as_slice(), "refused words"),
        (["show", "--help"].as_slice(), "refused words"),
        (["show", "-h"].as_slice(), "refused words"),
        (["show", "-x"].as_slice(), "refused words"),
        (["trial", "f", "-x"].as_slice(), "refused words"),
        (["show", ""].as_slice(), "show []"),
        (["show", "--", "-x"].as_slice(), "show [-x]"),
        (["drive", "a:1", "f", "s"].as_slice(), "drive [a:1] [f] [s]"),
        (["drive", "a:1", "f"].as_slice(), "refused words"),
        (["drive", "a:1", "f", "s", "t"].as_slice(), "refused words"),
        (["drive", "--help"].as_slice(), "refused words"),
    ] {
        let got = read_of(rt.alloc(), list)?;
        assert_eq!(rt; got.as_str(), read);
    }
    Ok(())
}

#[test]
fn reads_words_of_serve(rt: HostRuntime) -> Result<(), Fail> {
    for (list, read) in [
        (
            [
                "serve",
                "a:1",
                "f",
                "--workers",
                "64",
                "--sessions",
                "100000",
            ]
            .as_slice(),
            "serve [a:1] [f] 64 100000",
        ),
        (
            [
                "serve",
                "a:1",
                "f",
                "356307042441013",
                "000000000000007",
                "--sessions",
                "2",
                "--workers",
                "1",
            ]
            .as_slice(),
            "serve [a:1] [f] 1 2 356307042441013 7",
        ),
        (
            ["serve", "a:1", "f", "--workers", "0", "--sessions", "1"].as_slice(),
            "refused words",
        ),
        (
            ["serve", "a:1", "f", "--workers", "65", "--sessions", "1"].as_slice(),
            "refused words",
        ),
        (
            [
                "serve",
                "a:1",
                "f",
                "--workers",
                "1",
                "--sessions",
                "100001",
            ]
            .as_slice(),
            "refused words",
        ),
        (
            ["serve", "a:1", "f", "--workers", "+1", "--sessions", "1"].as_slice(),
            "refused words",
        ),
        (
            ["serve", "a:1", "f", "--workers", "01", "--sessions", "1"].as_slice(),
            "refused words",
        ),
        (
            ["serve", "a:1", "f", "--workers", "1"].as_slice(),
            "refused words",
        ),
        (
            [
                "serve",
                "a:1",
                "f",
                "--sessions",
                "1",
                "--workers",
                "1",
                "--workers",
                "1",
            ]
            .as_slice(),
            "refused words",
        ),
        (
            ["serve", "a:1", "--workers", "1", "--sessions", "1"].as_slice(),
            "refused words",
        ),
        (
            [
                "serve",
                "a:1",
                "f",
                "35630704244101",
                "--workers",
                "1",
                "--sessions",
                "1",
            ]
            .as_slice(),
            "refused words",
        ),
        (
            [
                "serve",
                "a:1",
                "f",
                "35630704244101x",
                "--workers",
                "1",
                "--sessions",
                "1",
            ]
            .as_slice(),
            "refused words",
        ),
        (["serve", "--help"].as_slice(), "refused words"),
    ] {
        let got = read_of(rt.alloc(), list)?;
        assert_eq!(rt; got.as_str(), read);
    }
    Ok(())
}
