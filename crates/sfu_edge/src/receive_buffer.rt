// The size of a socket's receive buffer, in which the system keeps datagrams until they are received.
use libc::net as c;
use std::net::UdpSocket;
use std::os::fd::AsRawFd;

/// If a socket's receive buffer has fewer bytes than this, its link requests one of this size. A packet of 1,200 bytes takes some 2,300 bytes of the
/// buffer. So this size is enough for a burst of 512 such packets, the capacity of a subscriber's queue.
const LEAST_SIZE: i32 = 1_200_000;

/// The length of a socket option's value, in bytes.
const NUMBER_BYTES: u32 = 4;

/// Requests a larger receive buffer if the socket's buffer has fewer than `LEAST_SIZE` bytes. The system allows at most twice `net.core.rmem_max`. If
/// the system refuses the request, the buffer keeps its size.
pub fn enlarge(socket: &UdpSocket) {
    let fd = socket.as_raw_fd();
    let mut value = [0u8; 16];
    let mut length = NUMBER_BYTES;
    let status = unsafe { c::getsockopt(fd, c::SOL_SOCKET, c::SO_RCVBUF, &mut value, &mut length) };
    let size = i32::from_ne_bytes([value[0], value[1], value[2], value[3]]);
    if status == 0 && size < LEAST_SIZE {
        // The system doubles the requested size.
        value[..4].copy_from_slice(&(LEAST_SIZE / 2).to_ne_bytes());
        let _ = unsafe { c::setsockopt(fd, c::SOL_SOCKET, c::SO_RCVBUF, &value, NUMBER_BYTES) };
    }
}
