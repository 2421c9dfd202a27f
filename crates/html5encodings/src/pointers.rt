//! The characters of pointers.
ghost use Rattle.std.specs.Prelude.{◌≡◌};
ghost use Rattle.html5encodings.specs.IndexBig5.{index_big5};
ghost use Rattle.html5encodings.specs.IndexEucKr.{index_euc_kr};
ghost use Rattle.html5encodings.specs.IndexGb18030.{index_gb18030};
ghost use Rattle.html5encodings.specs.IndexJis0208.{index_jis0208};
ghost use Rattle.html5encodings.specs.IndexJis0212.{index_jis0212};
ghost use Rattle.html5encodings.specs.Steps.{code_point_at};

use crate::index_big5::BIG5;
use crate::index_euc_kr::EUC_KR;
use crate::index_gb18030::GB18030;
use crate::index_jis0208::JIS0208;
use crate::index_jis0212::JIS0212;

// The character of a pointer in an index, if there is one.
pub(crate) fn character_at(index: &[char], pointer: usize) -> Option<char>
    ensures { result ≡ code_point_at index.now pointer }
{
    if pointer < index.len() {
        let character = index[pointer];
        if character != '\0' {
            return Some(character);
        }
    }
    None
}

pub(crate) fn in_big5(pointer: usize) -> Option<char>
    ensures { result ≡ code_point_at index_big5 pointer }
{
    character_at(&BIG5, pointer)
}

pub(crate) fn in_euc_kr(pointer: usize) -> Option<char>
    ensures { result ≡ code_point_at index_euc_kr pointer }
{
    character_at(&EUC_KR, pointer)
}

pub(crate) fn in_gb18030(pointer: usize) -> Option<char>
    ensures { result ≡ code_point_at index_gb18030 pointer }
{
    character_at(&GB18030, pointer)
}

pub(crate) fn in_jis0208(pointer: usize) -> Option<char>
    ensures { result ≡ code_point_at index_jis0208 pointer }
{
    character_at(&JIS0208, pointer)
}

pub(crate) fn in_jis0212(pointer: usize) -> Option<char>
    ensures { result ≡ code_point_at index_jis0212 pointer }
{
    character_at(&JIS0212, pointer)
}
