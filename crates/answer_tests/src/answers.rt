// The text of each kind of answer, and of several.
use answer::answer::Answer;
use case_paper::shown::Shown;
use measure::Grains;
use sheet::sheet::Sheet;
use std::process::Abort;
use std::test::Fail;

// Of the answer this text is printed.
fn check_text(rt: &impl Abort, text: &mut Vec<u8>, answer: Answer, due: &[u8]) -> Result<(), Fail> {
    text.clear();
    answer.append_to(text)?;
    assert_eq!(rt; text.as_slice(), due);
    Ok(())
}

#[test]
fn words_alone(rt: HostRuntime) -> Result<(), Fail> {
    let mut text = Vec::new(rt.alloc());
    check_text(&rt, &mut text, Answer::Case, b"CASE\n")?;
    check_text(&rt, &mut text, Answer::Changed, b"CHANGED\n")
}

#[test]
fn costs_and_floors(rt: HostRuntime) -> Result<(), Fail> {
    let mut text = Vec::new(rt.alloc());
    check_text(&rt, &mut text, Answer::Held(Grains(24080)), b"HELD 24080\n")?;
    check_text(&rt, &mut text, Answer::Held(Grains(-5)), b"HELD -5\n")?;
    check_text(
        &rt,
        &mut text,
        Answer::Passed(Grains(28020)),
        b"PASSED 28020\n",
    )?;
    check_text(&rt, &mut text, Answer::Passed(Grains(0)), b"PASSED 0\n")?;
    check_text(
        &rt,
        &mut text,
        Answer::Trial(Grains(i64::MAX)),
        b"TRIAL 9223372036854775807\n",
    )?;
    check_text(
        &rt,
        &mut text,
        Answer::Trial(Grains(i64::MIN)),
        b"TRIAL -9223372036854775808\n",
    )
}

#[test]
fn refusals(rt: HostRuntime) -> Result<(), Fail> {
    let mut text = Vec::new(rt.alloc());
    let first = Answer::Refused(Shown {
        number: 12,
        place: 0,
    });
    check_text(&rt, &mut text, first, b"REFUSED 12 0\n")?;
    let last = Answer::Refused(Shown {
        number: u32::MAX,
        place: usize::MAX,
    });
    check_text(
        &rt,
        &mut text,
        last,
        b"REFUSED 4294967295 18446744073709551615\n",
    )
}

#[test]
fn a_sheet(rt: HostRuntime) -> Result<(), Fail> {
    let mut text = Vec::new(rt.alloc());
    let sheet = Answer::Sheet(Sheet {
        attendant: 7,
        held: 2,
        passed: 1,
        declined: 3,
        changes: 0,
        cost: Some(Grains(24080)),
        floor: None,
    });
    check_text(
        &rt,
        &mut text,
        sheet,
        b"WATCH 7\nHELD 2\nPASSED 1\nDECLINED 3\nCHANGES 0\nCOST 24080\nFLOOR -\nGAP -\n",
    )
}

#[test]
fn one_after_another(rt: HostRuntime) -> Result<(), Fail> {
    let mut text = Vec::new(rt.alloc());
    let refused = Shown {
        number: 3,
        place: 41,
    };
    let answers = [
        Answer::Case,
        Answer::Held(Grains(24080)),
        Answer::Refused(refused),
        Answer::Changed,
        Answer::Trial(Grains(-30500)),
    ];
    for answer in answers.iter() {
        answer.append_to(&mut text)?;
    }
    assert_eq!(rt;
        text.as_slice(),
        b"CASE\nHELD 24080\nREFUSED 3 41\nCHANGED\nTRIAL -30500\n".as_slice()
    );
    Ok(())
}
