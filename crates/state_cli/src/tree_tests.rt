use crate::tests::check_lines;
use std::test::Fail;

// Trees and roots are values of a program in another language.
const ROUNDS: &[(&str, &str)] = &[
    (
        "tree live",
        "tree 6eef215e101fcb2be0e21bc179ed6beeacf91142af5b307734a71a665dc8cfc8",
    ),
    ("canister 00", "ok"),
    (
        "round",
        "round 1 tree 0aebdd276407013fa06d6733e19aa11eaec20b1cbcb05cfad122249eb915c531",
    ),
    ("heights", "heights live 2 memory 1 published -"),
    ("manifest 1", "manifest files 3 chunks 1 pieces 1 bytes 227"),
    (
        "root 1",
        "root 0fe16e5b4c20ab894f9762e89fcd208b783538fa7db16d52a5c38a024f5b564a",
    ),
    (
        "tree 1",
        "tree 0aebdd276407013fa06d6733e19aa11eaec20b1cbcb05cfad122249eb915c531",
    ),
    ("write 00 heap 0 02", "ok"),
    ("read live 00 heap 0 1", "data 02"),
    ("read 1 00 heap 0 1", "refused PastEnd"),
    ("read 1 01 heap 0 1", "refused NoCanister"),
    ("tree 2", "refused NoHeight"),
    ("witness 2 /time", "refused NoHeight"),
    ("forget 2", "refused NoHeight"),
    (
        "round",
        "round 2 tree 0aebdd276407013fa06d6733e19aa11eaec20b1cbcb05cfad122249eb915c531",
    ),
    ("read 2 00 heap 0 1", "data 02"),
    (
        "root 1",
        "root 0fe16e5b4c20ab894f9762e89fcd208b783538fa7db16d52a5c38a024f5b564a",
    ),
    ("forget 1", "ok"),
    ("forget 1", "refused NoHeight"),
    ("root 1", "refused NoHeight"),
    ("read 2 00 heap 0 1", "data 02"),
    ("heights", "heights live 3 memory 2 published -"),
    ("forget 0", "refused BadLine"),
    ("round 1", "refused BadLine"),
    ("witness live", "refused BadLine"),
];

// Sixteen states in memory, and no more.
const FULL: &[(&str, &str)] = &[
    ("canister 00", "ok"),
    (
        "round",
        "round 1 tree 0aebdd276407013fa06d6733e19aa11eaec20b1cbcb05cfad122249eb915c531",
    ),
    (
        "round",
        "round 2 tree 0aebdd276407013fa06d6733e19aa11eaec20b1cbcb05cfad122249eb915c531",
    ),
    (
        "round",
        "round 3 tree 0aebdd276407013fa06d6733e19aa11eaec20b1cbcb05cfad122249eb915c531",
    ),
    (
        "round",
        "round 4 tree 0aebdd276407013fa06d6733e19aa11eaec20b1cbcb05cfad122249eb915c531",
    ),
    (
        "round",
        "round 5 tree 0aebdd276407013fa06d6733e19aa11eaec20b1cbcb05cfad122249eb915c531",
    ),
    (
        "round",
        "round 6 tree 0aebdd276407013fa06d6733e19aa11eaec20b1cbcb05cfad122249eb915c531",
    ),
    (
        "round",
        "round 7 tree 0aebdd276407013fa06d6733e19aa11eaec20b1cbcb05cfad122249eb915c531",
    ),
    (
        "round",
        "round 8 tree 0aebdd276407013fa06d6733e19aa11eaec20b1cbcb05cfad122249eb915c531",
    ),
    (
        "round",
        "round 9 tree 0aebdd276407013fa06d6733e19aa11eaec20b1cbcb05cfad122249eb915c531",
    ),
    (
        "round",
        "round 10 tree 0aebdd276407013fa06d6733e19aa11eaec20b1cbcb05cfad122249eb915c531",
    ),
    (
        "round",
        "round 11 tree 0aebdd276407013fa06d6733e19aa11eaec20b1cbcb05cfad122249eb915c531",
    ),
    (
        "round",
        "round 12 tree 0aebdd276407013fa06d6733e19aa11eaec20b1cbcb05cfad122249eb915c531",
    ),
    (
        "round",
        "round 13 tree 0aebdd276407013fa06d6733e19aa11eaec20b1cbcb05cfad122249eb915c531",
    ),
    (
        "round",
        "round 14 tree 0aebdd276407013fa06d6733e19aa11eaec20b1cbcb05cfad122249eb915c531",
    ),
    (
        "round",
        "round 15 tree 0aebdd276407013fa06d6733e19aa11eaec20b1cbcb05cfad122249eb915c531",
    ),
    (
        "round",
        "round 16 tree 0aebdd276407013fa06d6733e19aa11eaec20b1cbcb05cfad122249eb915c531",
    ),
    ("round", "refused ManyHeights"),
    (
        "heights",
        "heights live 17 memory 1,2,3,4,5,6,7,8,9,10,11,12,13,14,15,16 published -",
    ),
    ("forget 9", "ok"),
    (
        "round",
        "round 17 tree 0aebdd276407013fa06d6733e19aa11eaec20b1cbcb05cfad122249eb915c531",
    ),
    (
        "heights",
        "heights live 18 memory 1,2,3,4,5,6,7,8,10,11,12,13,14,15,16,17 published -",
    ),
    ("canister 00", "refused Exists"),
];

// The witnesses of one state, and what each tells of its path.
const WITNESSES: &[(&str, &str)] = &[
    ("canister 00", "ok"),
    ("module 00 616263", "ok"),
    ("time 300", "ok"),
    ("put /subnet/x 05", "ok"),
    (
        "round",
        "round 1 tree 37e68b7089bdefdcd360b5fa8c5c46d1ddfb15eb072c6a43049f5a74360a7b54",
    ),
    (
        "witness 1 /canister/0x00/module_hash",
        "witness 8301830183024863616e6973746572830241008301820458203168ca4629a5be61fdf3870df0e2cfd904bbb322d3bee234d98ff5b29bd2499183024b6d6f64756c655f6861736882035820ba7816bf8f01cfea414140de5dae2223b00361a396177a9cb410ff61f20015ad82045820f7bb7a0945dff7c6c4cc6073ea57fe16ec12a9fccae9845bcd9bbb369223150382045820fb29c04b49d22eed9f723642ff42fad65382ba8bcf82bf5efcf6bc4527c734bc",
    ),
    (
        "check 37e68b7089bdefdcd360b5fa8c5c46d1ddfb15eb072c6a43049f5a74360a7b54 8301830183024863616e6973746572830241008301820458203168ca4629a5be61fdf3870df0e2cfd904bbb322d3bee234d98ff5b29bd2499183024b6d6f64756c655f6861736882035820ba7816bf8f01cfea414140de5dae2223b00361a396177a9cb410ff61f20015ad82045820f7bb7a0945dff7c6c4cc6073ea57fe16ec12a9fccae9845bcd9bbb369223150382045820fb29c04b49d22eed9f723642ff42fad65382ba8bcf82bf5efcf6bc4527c734bc /canister/0x00/module_hash",
        "found ba7816bf8f01cfea414140de5dae2223b00361a396177a9cb410ff61f20015ad",
    ),
    (
        "witness 1 /time",
        "witness 830182045820d551b150f82bd8fa229444de3fb7ffa481ea99514c7675d38cd032bf63c665de83024474696d65820342ac02",
    ),
    (
        "check 37e68b7089bdefdcd360b5fa8c5c46d1ddfb15eb072c6a43049f5a74360a7b54 830182045820d551b150f82bd8fa229444de3fb7ffa481ea99514c7675d38cd032bf63c665de83024474696d65820342ac02 /time",
        "found ac02",
    ),
    (
        "witness 1 /a",
        "witness 8301830183024863616e6973746572820458207885fec15cf2b192420d89da69e7db685aedfd45761024647cd5627fe93e621582045820f7bb7a0945dff7c6c4cc6073ea57fe16ec12a9fccae9845bcd9bbb369223150382045820fb29c04b49d22eed9f723642ff42fad65382ba8bcf82bf5efcf6bc4527c734bc",
    ),
    (
        "check 37e68b7089bdefdcd360b5fa8c5c46d1ddfb15eb072c6a43049f5a74360a7b54 8301830183024863616e6973746572820458207885fec15cf2b192420d89da69e7db685aedfd45761024647cd5627fe93e621582045820f7bb7a0945dff7c6c4cc6073ea57fe16ec12a9fccae9845bcd9bbb369223150382045820fb29c04b49d22eed9f723642ff42fad65382ba8bcf82bf5efcf6bc4527c734bc /a",
        "absent",
    ),
    (
        "witness 1 /request_status/q",
        "witness 8301830183024863616e6973746572820458207885fec15cf2b192420d89da69e7db685aedfd45761024647cd5627fe93e62158302467375626e657482045820a552b89b7a726652ebdeb96693c5dcf3583b6442b9d40c3b0af4d9186270d38682045820fb29c04b49d22eed9f723642ff42fad65382ba8bcf82bf5efcf6bc4527c734bc",
    ),
    (
        "check 37e68b7089bdefdcd360b5fa8c5c46d1ddfb15eb072c6a43049f5a74360a7b54 8301830183024863616e6973746572820458207885fec15cf2b192420d89da69e7db685aedfd45761024647cd5627fe93e62158302467375626e657482045820a552b89b7a726652ebdeb96693c5dcf3583b6442b9d40c3b0af4d9186270d38682045820fb29c04b49d22eed9f723642ff42fad65382ba8bcf82bf5efcf6bc4527c734bc /request_status/q",
        "absent",
    ),
    (
        "witness 1 /subnet",
        "witness 830183018204582019ec77990050f1db3840ee0ec05e24052d5e857b3e19dd73830b637fbd1f4f818302467375626e657482045820a552b89b7a726652ebdeb96693c5dcf3583b6442b9d40c3b0af4d9186270d38682045820fb29c04b49d22eed9f723642ff42fad65382ba8bcf82bf5efcf6bc4527c734bc",
    ),
    (
        "check 37e68b7089bdefdcd360b5fa8c5c46d1ddfb15eb072c6a43049f5a74360a7b54 830183018204582019ec77990050f1db3840ee0ec05e24052d5e857b3e19dd73830b637fbd1f4f818302467375626e657482045820a552b89b7a726652ebdeb96693c5dcf3583b6442b9d40c3b0af4d9186270d38682045820fb29c04b49d22eed9f723642ff42fad65382ba8bcf82bf5efcf6bc4527c734bc /subnet",
        "unknown",
    ),
    (
        "witness 1 /subnet/x/y",
        "witness 830183018204582019ec77990050f1db3840ee0ec05e24052d5e857b3e19dd73830b637fbd1f4f818302467375626e6574830241788203410582045820fb29c04b49d22eed9f723642ff42fad65382ba8bcf82bf5efcf6bc4527c734bc",
    ),
    (
        "check 37e68b7089bdefdcd360b5fa8c5c46d1ddfb15eb072c6a43049f5a74360a7b54 830183018204582019ec77990050f1db3840ee0ec05e24052d5e857b3e19dd73830b637fbd1f4f818302467375626e6574830241788203410582045820fb29c04b49d22eed9f723642ff42fad65382ba8bcf82bf5efcf6bc4527c734bc /subnet/x/y",
        "error",
    ),
];

// The example tree of the Interface Specification, with its root.
const EXAMPLE: &[(&str, &str)] = &[
    (
        "check eb5c5b2195e62d996b84c9bcc8259d19a83786a2f59e0878cec84c811f669aa0 8301830183024161830183018302417882034568656c6c6f810083024179820345776f726c6483024162820344676f6f648301830241638100830241648203476d6f726e696e67 /a/x",
        "found 68656c6c6f",
    ),
    (
        "check eb5c5b2195e62d996b84c9bcc8259d19a83786a2f59e0878cec84c811f669aa0 8301830183024161830183018302417882034568656c6c6f810083024179820345776f726c6483024162820344676f6f648301830241638100830241648203476d6f726e696e67 /a/z",
        "absent",
    ),
    (
        "check eb5c5b2195e62d996b84c9bcc8259d19a83786a2f59e0878cec84c811f669aa0 8301830183024161830183018302417882034568656c6c6f810083024179820345776f726c6483024162820344676f6f648301830241638100830241648203476d6f726e696e67 /c",
        "absent",
    ),
    (
        "check eb5c5b2195e62d996b84c9bcc8259d19a83786a2f59e0878cec84c811f669aa0 8301830183024161830183018302417882034568656c6c6f810083024179820345776f726c6483024162820344676f6f648301830241638100830241648203476d6f726e696e67 /e",
        "absent",
    ),
    (
        "check eb5c5b2195e62d996b84c9bcc8259d19a83786a2f59e0878cec84c811f669aa0 8301830183024161830183018302417882034568656c6c6f810083024179820345776f726c6483024162820344676f6f648301830241638100830241648203476d6f726e696e67 /a",
        "error",
    ),
    (
        "check eb5c5b2195e62d996b84c9bcc8259d19a83786a2f59e0878cec84c811f669aa0 8301830183024161830183018302417882034568656c6c6f810083024179820345776f726c6483024162820344676f6f648301830241638100830241648203476d6f726e696e67 /b/q",
        "error",
    ),
    (
        "check fb5c5b2195e62d996b84c9bcc8259d19a83786a2f59e0878cec84c811f669aa0 8301830183024161830183018302417882034568656c6c6f810083024179820345776f726c6483024162820344676f6f648301830241638100830241648203476d6f726e696e67 /a/x",
        "refused WrongRoot eb5c5b2195e62d996b84c9bcc8259d19a83786a2f59e0878cec84c811f669aa0",
    ),
    (
        "check eb5c5b2195e62d996b84c9bcc8259d19a83786a2f59e0878cec84c811f669aa0 8102 /a",
        "refused BadWitness 1",
    ),
    (
        "check eb5c5b2195e62d996b84c9bcc8259d19a83786a2f59e0878cec84c811f669aa0 810000 /a",
        "refused BadWitness 2",
    ),
    (
        "check eb5c5b2195e62d996b84c9bcc8259d19a83786a2f59e0878cec84c811f669aa0 - /a",
        "refused BadWitness 0",
    ),
    (
        "check eb5c5b2195e62d996b84c9bcc8259d19a83786a2f59e0878cec84c811f669aa0 8100 a",
        "refused BadLine",
    ),
];

#[test]
fn states_in_memory_and_witnesses_are_answered(rt: HostRuntime) -> Result<(), Fail> {
    let alloc = rt.alloc();
    check_lines(&rt, alloc, ROUNDS)?;
    check_lines(&rt, alloc, FULL)?;
    check_lines(&rt, alloc, WITNESSES)?;
    check_lines(&rt, alloc, EXAMPLE)
}
