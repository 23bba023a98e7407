//! The reserved words.
ghost use Rattle.std.specs.Prelude.{◌≡◌};
ghost use Rattle.std.specs.Char.{is_ascii_lowercase};
ghost use Rattle.std.specs.List.{list_all};
ghost use Rattle.mintc_verilog_expressions.specs.Lexemes.{is_reserved, is_module_word, is_net_word, is_assign_word};
ghost use Rattle.mintc_verilog_expressions.specs.Lexemes.{is_process_word, is_gate_word, is_buffer_word};
ghost use Rattle.mintc_verilog_expressions.specs.Reserved.{looks_reserved};

/// Whether a word is no name. Most names don't look like reserved words, and aren't compared with them.
pub(crate) fn is_reserved(word: &[u8]) -> bool
    ensures { result ≡ is_reserved word.now }
{
    if !looks_reserved(word) {
        return false;
    }
    is_listed(word)
}

/// Whether all bytes are lower-case letters.
fn are_lowercase(bytes: &[u8]) -> bool
    ensures { result ≡ list_all is_ascii_lowercase bytes.now }
{
    bytes.iter().all(|byte| byte.is_ascii_lowercase())
}

/// Whether all bytes of a word but the last are lower-case letters, as those of each reserved word are.
fn looks_reserved(word: &[u8]) -> bool
    ensures { result ≡ looks_reserved word.now }
{
    are_lowercase(&word[..word.len().saturating_sub(1)])
}

/// Whether a word is one of the reserved words.
#[tactic(auto, unfolding(crate::specs::Lexemes::is_reserved))]
fn is_listed(word: &[u8]) -> bool
    ensures { result ≡ is_reserved word.now }
{
    is_module_word(word)
        || is_net_word(word)
        || is_assign_word(word)
        || is_process_word(word)
        || is_gate_word(word)
        || is_buffer_word(word)
}

/// Words of modules and ports.
fn is_module_word(word: &[u8]) -> bool
    ensures { result ≡ is_module_word word.now }
{
    word == b"module".as_slice()
        || word == b"endmodule".as_slice()
        || word == b"input".as_slice()
        || word == b"output".as_slice()
        || word == b"inout".as_slice()
}

/// Words of nets.
fn is_net_word(word: &[u8]) -> bool
    ensures { result ≡ is_net_word word.now }
{
    word == b"wire".as_slice()
        || word == b"tri".as_slice()
        || word == b"supply0".as_slice()
        || word == b"supply1".as_slice()
        || word == b"reg".as_slice()
}

/// Words of assigns and parameters.
fn is_assign_word(word: &[u8]) -> bool
    ensures { result ≡ is_assign_word word.now }
{
    word == b"assign".as_slice()
        || word == b"parameter".as_slice()
        || word == b"localparam".as_slice()
        || word == b"defparam".as_slice()
}

/// Words of behaviour.
fn is_process_word(word: &[u8]) -> bool
    ensures { result ≡ is_process_word word.now }
{
    word == b"always".as_slice()
        || word == b"initial".as_slice()
        || word == b"generate".as_slice()
        || word == b"endgenerate".as_slice()
        || word == b"function".as_slice()
        || word == b"task".as_slice()
        || word == b"specify".as_slice()
}

/// Words of gates.
fn is_gate_word(word: &[u8]) -> bool
    ensures { result ≡ is_gate_word word.now }
{
    word == b"and".as_slice()
        || word == b"nand".as_slice()
        || word == b"or".as_slice()
        || word == b"nor".as_slice()
        || word == b"xor".as_slice()
        || word == b"xnor".as_slice()
}

/// Words of buffers.
fn is_buffer_word(word: &[u8]) -> bool
    ensures { result ≡ is_buffer_word word.now }
{
    word == b"buf".as_slice()
        || word == b"not".as_slice()
        || word == b"bufif0".as_slice()
        || word == b"bufif1".as_slice()
        || word == b"notif0".as_slice()
        || word == b"notif1".as_slice()
}
