//! Requests and statements over KoalaBear and Goldilocks, of both schemes.

use crate::expectations::is_compared;
use crate::refusals::{MOVED, Refusal, is_refused};
use crate::texts::{COLUMN, Lines, changed, warning, writes, written};
use fri_json::{Command, Failure, open, verify};
use std::alloc::{AllocError, Global};

/// The parameters of each request.
const PARAMETERS: &str = "\"parameters\":{\"log_blowup\":1,\"log_final_poly_len\":0,\
\"max_log_arity\":2,\"num_queries\":2,\"batch_proof_of_work_bits\":1,\
\"commit_proof_of_work_bits\":0,\"query_proof_of_work_bits\":1}";

/// A column, up to the points that it is opened at.
const COMMITMENTS: &str = "\"commitments\":[{\"matrices\":[{\"domain\":{\"shift\":1,\
\"log_size\":4},\"width\":1,\
\"values\":[1,2,5,10,17,26,37,50,65,82,101,122,145,170,197,226],\"points\"";

/// What a request names beside, and what `tools/relation` finds: the lines of what is accepted, the
/// values, what is drawn next, and the refusals that are true of the changed answer.
#[derive(Clone, Copy)]
struct Case {
    field: &'static str,
    point: &'static str,
    hiding: &'static str,
    summary: &'static str,
    values: &'static str,
    next_challenge: &'static [u64],
    refusals: [Refusal; 3],
}

const KOALA_BEAR: Case = Case {
    field: "KoalaBear",
    point: "5,1,0,0",
    hiding: "",
    summary: "accepted\n\
field KoalaBear\n\
context empty\n\
commitment 13d6b47ec8c18227019b782fb9550da23dbd4187ef1e1cfb237376dc7aaf783c\n\
matrix log_size 4 width 1 points 1\n\
conjectured soundness bits 3\n",
    values: "\"values\":[[1164885949,546479405,25437395,1765536855]]",
    next_challenge: &[210112373, 470107945, 859955594, 261243304],
    refusals: [
        (
            "\"values\":[[1164885949",
            "\"values\":[[1164885950",
            &["InvalidPowWitness(Batch)"],
        ),
        (
            "\"final_poly\":[[1012969900",
            "\"final_poly\":[[1012969901",
            MOVED,
        ),
        (
            "\"context\":\"\"",
            "\"context\":\"00\"",
            &["InvalidPowWitness(Batch)"],
        ),
    ],
};

const HIDING_KOALA_BEAR: Case = Case {
    field: "KoalaBear",
    point: "5,1,0,0",
    hiding: "\"hiding\":{\"num_random_codewords\":4,\"seed\":\"\
0707070707070707070707070707070707070707070707070707070707070707\"},",
    summary: "accepted\n\
field KoalaBear\n\
context empty\n\
commitment 3ceee3111163fc92bdbd3c623dc0ae1cd0fcfcec5293c85987b5539aaa75bef3\n\
matrix log_size 5 width 1 points 1\n\
conjectured soundness bits 3\n",
    values: "\"values\":[[1450710573,1375329946,224813824,671218281]]",
    next_challenge: &[101655551, 732475106, 865185981, 147500835],
    refusals: [
        (
            "\"values\":[[1450710573",
            "\"values\":[[1450710574",
            &["InvalidPowWitness(Query)"],
        ),
        (
            "\"final_poly\":[[1665060688",
            "\"final_poly\":[[1665060689",
            &["InvalidPowWitness(Query)"],
        ),
        (
            "\"context\":\"\"",
            "\"context\":\"00\"",
            &["InvalidPowWitness(Query)"],
        ),
    ],
};

const GOLDILOCKS: Case = Case {
    field: "Goldilocks",
    point: "5,1",
    hiding: "",
    summary: "accepted\n\
field Goldilocks\n\
context empty\n\
commitment 3ff5640ced2ee2d07cd73d6e764e817f6c77a81cfe8105c45e20d2f4c74d54d7\n\
matrix log_size 4 width 1 points 1\n\
conjectured soundness bits 3\n",
    values: "\"values\":[[17179013964376828268,18342350841118328502]]",
    next_challenge: &[2491512547882364382, 2674291150810953142],
    refusals: [
        (
            "\"values\":[[17179013964376828268",
            "\"values\":[[17179013964376828269",
            &["InvalidPowWitness(Query)"],
        ),
        (
            "\"final_poly\":[[6849714782922793500",
            "\"final_poly\":[[6849714782922793501",
            MOVED,
        ),
        (
            "\"context\":\"\"",
            "\"context\":\"00\"",
            &["InvalidPowWitness(Batch)"],
        ),
    ],
};

const HIDING_GOLDILOCKS: Case = Case {
    field: "Goldilocks",
    point: "5,1",
    hiding: "\"hiding\":{\"num_random_codewords\":2,\"seed\":\"\
0707070707070707070707070707070707070707070707070707070707070707\"},",
    summary: "accepted\n\
field Goldilocks\n\
context empty\n\
commitment ce37b04cdc4c6072d4f1ba0f036225d5fd9fd0fc6f9bc6a78ef5f35e5c4cf385\n\
matrix log_size 5 width 1 points 1\n\
conjectured soundness bits 3\n",
    values: "\"values\":[[8426391153062402571,536904863301707297]]",
    next_challenge: &[10102041762284850193, 11870693615669958162],
    refusals: [
        (
            "\"values\":[[8426391153062402571",
            "\"values\":[[8426391153062402572",
            &["InvalidPowWitness(Batch)"],
        ),
        (
            "\"final_poly\":[[12954264908294409954",
            "\"final_poly\":[[12954264908294409955",
            &["InvalidPowWitness(Query)"],
        ),
        (
            "\"context\":\"\"",
            "\"context\":\"00\"",
            &["InvalidPowWitness(Batch)"],
        ),
    ],
};

/// The case's request.
fn request_of(alloc: Global, case: &Case) -> Result<String, AllocError> {
    let Case {
        field,
        point,
        hiding,
        ..
    } = *case;
    format!(in alloc;
        "{{\"field\":\"{field}\",{hiding}{PARAMETERS},{COMMITMENTS}:[[{point}]]}}]}}]}}"
    )
}

/// Whether the answer names its field, has the case's values, and is accepted.
fn is_accepted(alloc: Global, case: &Case, answer: &str) -> Result<bool, Failure> {
    let front = format!(in alloc; "{{\"field\":\"{}\",\"context\"", case.field)?;
    let fault = warning(alloc, 3)?;
    let lines = Lines {
        output: case.summary,
        fault: fault.as_str(),
        status: 0,
    };
    let next = verify(alloc, answer)?;
    Ok(
        answer.starts_with(front.as_str())
            && answer.contains(case.values)
            && writes(alloc, Command::Verify, answer, lines)
            && next.as_slice() == case.next_challenge,
    )
}

/// Whether each change of the answer is refused as it should be.
fn are_refused(alloc: Global, case: &Case, answer: &str) -> Result<bool, AllocError> {
    for refusal in &case.refusals {
        if !is_refused(alloc, answer, refusal)? {
            return Ok(false);
        }
    }
    Ok(true)
}

/// The first case whose answer isn't as it should be.
fn first_unanswered(alloc: Global) -> Result<Option<&'static str>, Failure> {
    for case in &[KOALA_BEAR, HIDING_KOALA_BEAR, GOLDILOCKS, HIDING_GOLDILOCKS] {
        let answer = open(alloc, request_of(alloc, case)?.as_str())?;
        let answer = answer.as_str();
        if !is_accepted(alloc, case, answer)? || !are_refused(alloc, case, answer)? {
            return Ok(Some(case.summary));
        }
    }
    Ok(None)
}

#[test]
fn each_field_is_opened_and_accepted(rt: HostRuntime) -> Result<(), Failure> {
    let first = first_unanswered(rt.alloc())?;
    assert!(rt; first.is_none(), "{first:?}");
    Ok(())
}

/// Answers whose field is another, or none, with the line that says why they aren't statements.
const OTHERS: [(Case, &str, &str); 4] = [
    (
        KOALA_BEAR,
        "",
        "Element: proof: expected a number below the field's order",
    ),
    (
        KOALA_BEAR,
        "\"field\":\"Goldilocks\",",
        "ExtensionElement: proof: expected numbers below the field's order, as many as the \
extension's degree",
    ),
    (
        HIDING_KOALA_BEAR,
        "",
        "Element: proof: expected a number below the field's order",
    ),
    (
        GOLDILOCKS,
        "\"field\":\"KoalaBear\",",
        "Element: proof: expected a number below the field's order",
    ),
];

/// The first line that isn't written of an answer over another field.
fn first_taken(alloc: Global) -> Result<Option<&'static str>, Failure> {
    for (case, named, line) in &OTHERS {
        let answer = open(alloc, request_of(alloc, case)?.as_str())?;
        let old = format!(in alloc; "\"field\":\"{}\",", case.field)?;
        let text = changed(alloc, answer.as_str(), old.as_str(), named)?;
        let fault = format!(in alloc; "fri: F: {line}\n")?;
        let lines = Lines {
            output: "",
            fault: fault.as_str(),
            status: 2,
        };
        if !writes(alloc, Command::Verify, text.as_str(), lines) {
            return Ok(Some(*line));
        }
    }
    Ok(None)
}

/// Whether an answer over a field isn't the expected one where the expected one's is another.
fn is_unexpected(alloc: Global) -> Result<bool, Failure> {
    let expected = open(alloc, request_of(alloc, &KOALA_BEAR)?.as_str())?;
    let answer = open(alloc, request_of(alloc, &GOLDILOCKS)?.as_str())?;
    let lines = Lines {
        output: "refused: Unexpected: field: expected another value\n",
        fault: "",
        status: 1,
    };
    Ok(is_compared(alloc, expected.as_str(), answer.as_str(), lines))
}

#[test]
fn a_proof_is_of_its_field(rt: HostRuntime) -> Result<(), Failure> {
    let first = first_taken(rt.alloc())?;
    assert!(rt; first.is_none(), "{first:?}");
    assert!(rt; is_unexpected(rt.alloc())?);
    Ok(())
}

/// What is written of a request over a field of this name, which there isn't.
fn fault_of_unknown(alloc: Global) -> Result<Vec<u8>, Failure> {
    let request = changed(alloc, COLUMN, "{", "{\"field\":\"Mersenne31\",")?;
    Ok(written(alloc, Command::Open, request.as_str()).fault)
}

#[test]
fn an_unknown_field_is_named(rt: HostRuntime) -> Result<(), Failure> {
    let fault = fault_of_unknown(rt.alloc())?;
    assert!(rt;
        fault.starts_with(b"fri: F: Json: field: unknown variant at line 1"),
        "{fault:?}"
    );
    Ok(())
}

/// A request that names BabyBear is answered by the same bytes.
#[test]
fn baby_bear_need_not_be_named(rt: HostRuntime) -> Result<(), Failure> {
    let alloc = rt.alloc();
    let named = changed(alloc, COLUMN, "{", "{\"field\":\"BabyBear\",")?;
    assert!(rt; open(alloc, named.as_str())?.as_str() == open(alloc, COLUMN)?.as_str());
    Ok(())
}
