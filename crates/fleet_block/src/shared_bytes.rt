//! The bytes that two keys share.

ghost use Rattle.std.specs.Prelude.{◌≡◌, ◌≤◌, length};
ghost use Rattle.row_model.specs.Written.TableBytes.{shared_len};

/// The length of the longest prefix that two keys have in common.
pub(crate) fn shared_len(first: &[u8], key: &[u8]) -> usize
    ensures value { result ≡ shared_len first.now key.now }
    ensures of_first { result ≤ length first.now }
    ensures of_key { result ≤ length key.now }
{
    let most = first.len().min(key.len());
    let mut shared = 0;
    'shared: while shared < most {
        if first[shared] != key[shared] {
            return shared;
        }
        shared += 1;
    }
    shared
}
