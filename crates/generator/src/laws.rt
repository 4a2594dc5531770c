//! What a summary tells by itself.

ghost use Rattle.std.specs.Prelude.{◌≡◌, List, length};
ghost use Rattle.hex.specs.Hex.{encode_lower};
ghost use Rattle.sha2.specs.Sha256.{sha256};
ghost use Rattle.format_spec.specs.Bytes.{Bytes};
ghost use Rattle.generator.specs.Summary.{summary_text, pieces, count_refused, text_of_replies, root_reply};

/// What is written for replies can be given to a sink in pieces: names, the two counts, the digits of the hash and the reply of
/// `root live`, each line with its line feed.
pub fn a_summary_is_its_pieces()
    ensures { (replies : List Bytes) → summary_text replies
        ≡ pieces (length replies) (count_refused replies) (encode_lower (sha256 (text_of_replies replies))) (root_reply replies) }
{}
